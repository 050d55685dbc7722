//! The handle by which C keeps a session. This file knows no dialogue.

ghost use Rattle.std.specs.Prelude.{◌≡◌, Option, Some, None};
ghost use Rattle.smtcheck_c.specs.Rows.{feed_code};
ghost use Rattle.smtcheck_c.specs.declared.feed.Feed.{Feed as Fed};

use crate::feed::Feed;
use crate::handle::Handle;
use std::alloc::Global;
use std::marker::Model;
use std::mem;

/// `struct smtcheck_session`: a session, or none. C neither follows nor copies the pointer.
#[repr(C)]
#[derive(Drop)]
pub struct SmtcheckSession {
    at: *mut u8,
    alloc: Global,
    pub ghost feed: { Option Fed } by { feed_code },
}

impl Model for SmtcheckSession {
    ghost use Rattle.smtcheck_c.specs.Rows.{feed_at};

    ghost also_owns = { λ s. feed_at s.alloc s.at s.feed };
}

/// Takes the session out of its handle, which has none after the call.
pub(crate) fn take(alloc: Global, session: &mut SmtcheckSession) -> Box<Feed>
    requires { (f : Fed) × (session.old.feed ≡ Some f) }
    ensures taken { session.old.feed ≡ Some result.value }
    ensures none { session.new.feed ≡ None }
{
    let none = wrap(Handle::none(alloc));
    unwrap(mem::replace(session, none)).into_box()
}

/// Puts a session into a handle that has none.
pub(crate) fn put(session: &mut SmtcheckSession, feed: Box<Feed>)
    ensures { session.new.feed ≡ Some feed.value }
{
    *session = wrap(Handle::of(feed));
}

// The handle as C keeps it, with a pointer to bytes. It has the same session or none.
fn wrap(handle: Handle<Feed, Global>) -> SmtcheckSession
    ensures { result.feed ≡ handle.value }
{
    let Handle { at, alloc } = handle;
    let at = at as *mut u8;
    SmtcheckSession { at, alloc }
}

// The handle as this crate uses it, with a pointer to a `Feed`. It has the same session or none.
fn unwrap(session: SmtcheckSession) -> Handle<Feed, Global>
    ensures { result.value ≡ session.feed }
{
    let SmtcheckSession { at, alloc } = session;
    let at = at as *mut Feed;
    Handle { at, alloc }
}
