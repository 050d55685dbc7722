//! The plain symbols by which solvers print elements of declared sorts. This file knows no sort.

ghost use Rattle.std.specs.Prelude.{◌≡◌, option_map};
ghost use Rattle.std.specs.Char.{is_ascii_digit};
ghost use Rattle.std.specs.List.{list_all};
ghost use Rattle.smt_forms.specs.ElementNames as names;

/// The name of the sort of which a symbol is an element: `U` for `U!val!0`, as z3 prints it, and for `@uc_U_0`, as cvc4
/// does; `None` for another symbol.
///
/// The standard does not know these forms: that they are read so is this project's rule. What stands at the end is a
/// numeral (SMT-LIB 2.6, section 3.1), so `U!val!00` is no element.
pub fn sort_of_element<'a>(symbol: &'a [u8]) -> Option<&'a [u8]>
    ensures { option_map (λ name. name.now) result ≡ names.sort_of_element symbol.now }
{
    if let Some(name) = before_numeral(b"!val!", symbol) {
        return Some(name);
    }
    match behind(b"@uc_", symbol) {
        Some(rest) => before_numeral(b"_", rest),
        None => None,
    }
}

// What stands before these characters in a symbol, where a numeral stands behind them and ends it.
fn before_numeral<'a>(mark: &[u8], symbol: &'a [u8]) -> Option<&'a [u8]>
    ensures { option_map (λ name. name.now) result ≡ names.before_numeral mark.now symbol.now }
{
    let mut at = 0;
    while at < symbol.len() {
        if is_numeral_behind(mark, &symbol[at..]) {
            return Some(&symbol[..at]);
        }
        at += 1;
    }
    None
}

// Whether a symbol is these characters with a numeral behind them.
fn is_numeral_behind(mark: &[u8], symbol: &[u8]) -> bool
    ensures { result ≡ names.is_numeral_behind (names.behind mark.now symbol.now) }
{
    match behind(mark, symbol) {
        Some(rest) => is_numeral(rest),
        None => false,
    }
}

// What stands behind these characters, where a symbol begins with them.
fn behind<'a>(first: &[u8], symbol: &'a [u8]) -> Option<&'a [u8]>
    ensures { option_map (λ rest. rest.now) result ≡ names.behind first.now symbol.now }
{
    symbol.strip_prefix(first)
}

// Whether characters are a numeral: 0, or digits of which the first is not 0.
fn is_numeral(text: &[u8]) -> bool
    ensures { result ≡ names.is_numeral text.now }
{
    let Some((first, rest)) = text.split_first() else {
        return false;
    };
    if rest.is_empty() {
        first.is_ascii_digit()
    } else {
        *first != b'0' && are_digits(text)
    }
}

fn are_digits(text: &[u8]) -> bool
    ensures { result ≡ list_all is_ascii_digit text.now }
{
    text.iter().all(|digit| digit.is_ascii_digit())
}
