//! What a worker keeps of the items that it answers.

ghost use Rattle.std.specs.Prelude.{◌≡◌, ◌↔◌, ◌+◌, ◌^◌, ◌<◌, ◌≤◌, [], IfOk, IsTrue, vec_capacity};

use crate::Kind;
use body_store::Closed;
use outside_io::Memory;
use std::alloc::Global;

/// Places behind the last item and the last reply that stay empty, so that neither lies on a cache line of what
/// follows: 128 bytes at least. A list that was filled before needs none for its items: no thread writes to it.
const SPARE_ITEMS: usize = 16;

const SPARE_REPLIES: usize = 128;

/// Items, and at the place of each that was answered its reply. Behind these are the items that wait.
#[derive(Drop)]
pub struct Tray<L, R> {
    pub items: L,
    pub replies: Vec<R>,
}

/// Whether a tray has places for so many items.
pub fn is_short(items: usize) -> bool
    ensures { IsTrue result ↔ (items < 2 ^ 32) }
{
    items < 1 << 32
}

/// An empty tray of a kind, and memory for so many items.
pub fn new_tray<K: Kind>(
    alloc: Global,
    closed: &Closed,
    room: u32,
) -> Result<Tray<K::List, K::Reply>, Memory>
    ensures is_of { IfOk result (λ tray. K.is_of closed.now tray.items) }
    ensures empty { IfOk result (λ tray. (K.items tray.items ≡ []) × (tray.replies.items ≡ [])) }
    ensures room { IfOk result
        (λ tray. (room ≤ K.room tray.items) × (room ≤ vec_capacity tray.replies)) }
{
    Ok(Tray {
        items: K::new_list(alloc, closed, room as usize + SPARE_ITEMS)?,
        replies: Vec::with_capacity(alloc, room as usize + SPARE_REPLIES)?,
    })
}

/// The tray of a kind in which a list waits, and memory for so many replies.
pub fn tray_with<K: Kind>(
    alloc: Global,
    list: K::List,
    room: u32,
) -> Result<Tray<K::List, K::Reply>, Memory>
    ensures items { IfOk result (λ tray. (tray.items ≡ list) × (tray.replies.items ≡ [])) }
    ensures room { IfOk result (λ tray. room ≤ vec_capacity tray.replies) }
{
    Ok(Tray {
        items: list,
        replies: Vec::with_capacity(alloc, room as usize + SPARE_REPLIES)?,
    })
}
