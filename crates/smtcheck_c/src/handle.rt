//! A value on the heap, or none, as a pointer. This file knows no dialogue.

ghost use Rattle.std.specs.Prelude.{◌≡◌, Option, Some, None};
ghost use Rattle.smtcheck_c.specs.Held.{held_at};

use std::alloc::Allocator;
use std::marker::Model;
use std::ptr::null_mut;

/// A value on the heap, or none.
#[derive(Drop)]
pub struct Handle<T, A: Allocator> {
    pub(crate) at: *mut T,
    pub(crate) alloc: A,
    pub ghost value: { Option T },
}

impl<T, A: Allocator> Model for Handle<T, A> {
    ghost also_owns = { λ h. held_at (A.dealloc_token h.alloc) T.row h.at h.value };
}

impl<T, A: Allocator> Handle<T, A> {
    /// A handle of no value.
    pub(crate) fn none(alloc: A) -> Handle<T, A>
        ensures { result.value ≡ None }
    {
        Handle {
            at: null_mut(),
            alloc,
        }
    }

    /// A handle of the value in a box.
    pub(crate) fn of(value: Box<T, A>) -> Handle<T, A>
    where
        T: Drop,
        ensures { result.value ≡ Some value.value }
    {
        let (at, alloc) = Box::into_raw_with_allocator(value);
        Handle { at, alloc }
    }

    /// Turns a handle that has a value back into the box of that value.
    pub(crate) fn into_box(self) -> Box<T, A>
        requires { (x : T) × (self.value ≡ Some x) }
        ensures { self.value ≡ Some result.value }
    {
        let Handle { at, alloc } = self;
        unsafe { Box::from_raw(alloc, at) }
    }
}
