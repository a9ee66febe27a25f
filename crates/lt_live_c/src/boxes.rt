// Boxes of handles.
ghost use Rattle.std.specs.Prelude.{◌≡◌, Some, None, IfSome, IfNone};

use crate::code::OK;
use crate::content::Content;
use crate::handle::Handle;
use crate::journal::Journal;
use std::alloc::{AllocError, Global};
use std::mem::replace;

/// What the handle stands for, if it does, which stands for nothing then.
pub fn take(alloc: Global, handle: &mut Handle) -> Option<Box<Content>>
    ensures some { IfSome result (λ inside. handle.old.value ≡ Some inside.value) }
    ensures none { IfNone result (handle.old.value ≡ None) }
    ensures new { handle.new.value ≡ None }
{
    replace(handle, Handle::nothing(alloc)).into_box()
}

/// The handle stands for the content, in this box.
pub fn put(mut room: Box<Content>, content: Content, handle: &mut Handle) -> u32
    ensures code { result ≡ OK }
    ensures handle { handle.new.value ≡ Some content }
{
    *room = content;
    *handle = Handle::of(room);
    OK
}

/// A box for what is put into it later.
pub fn room(alloc: Global) -> Result<Box<Content>, AllocError> {
    let room = Box::new(alloc, Content::Journal(Journal::empty(alloc)))?;
    Ok(room)
}
