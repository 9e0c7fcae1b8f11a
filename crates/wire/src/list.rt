// The lists that calls are lent.
ghost use Rattle.std.specs.Prelude.{◌≤◌, length};

use crate::payload::{Given, Payload};

// No payload has a longer buffer: `trial` reads a payload into so many bytes.
pub const BUFFER: usize = 20000;

// The list that stands on the wire in so many bytes a place, as far as there is room for it. In 0 bytes a place no list stands.
pub fn lent<'a, T: Given + Copy>(room: &'a mut [T], width: usize, list: &[u8]) -> &'a mut [T]
    ensures { length result.now ≤ length room.old }
{
    let count = room.len().min(list.len().checked_div(width).unwrap_or(0));
    let places = &mut room[..count];
    Payload::new(list).each(places);
    places
}
