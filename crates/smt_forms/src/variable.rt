//! The variables that a term sees. This file knows nothing of what a variable stands for.

ghost use Rattle.std.specs.Prelude.{◌≡◌, bytes_eq};
ghost use Rattle.smt_theory.specs.Words.{look_up};
ghost use Rattle.smt_forms.specs.ScopeView.{scope_view};

/// A variable, with the value that is kept for it: its sort, or its value. The name is without bars.
#[derive(Clone, Copy)]
pub struct Variable<'a, V> {
    pub name: &'a [u8],
    pub value: V,
}

/// The value kept for the innermost variable of this name, in a scope with the innermost first; `None` where
/// there is no such variable (SMT-LIB 2.6, section 3.6.1).
#[inline(always)]
pub fn find_variable<V: Copy>(scope: &[Variable<'_, V>], name: &[u8]) -> Option<V>
    ensures { result ≡ look_up (scope_view scope.now) name.now }
{
    for variable in scope {
        if is_same(name, variable.name) {
            return Some(variable.value);
        }
    }
    None
}

fn is_same(name: &[u8], other: &[u8]) -> bool
    ensures { result ≡ bytes_eq name.now other.now }
{
    name == other
}
