//! Bytes of the arena: set, tested and moved.

ghost use Rattle.std.specs.Prelude.{◌≡◌, ◌+◌, ◌≤◌, true, ◌&&◌, ◌||◌, length, replicate, ◌==◌, nat_eq, nat_le};
ghost use Rattle.std.specs.List.{list_all};
ghost use Rattle.model.specs.Arena.{written, slice, disjoint, moved};

// A run is named by its first byte and its length, as `written` and `slice` name it, and not by a part of the slice: two runs of one arena are spoken of.
/// A run of bytes set to one value.
pub fn fill(bytes: &mut [u8], from: usize, count: usize, value: u8)
    requires { from + count ≤ length bytes.old }
    ensures { bytes.new ≡ written from (replicate count value) bytes.old }
{
    bytes[from..from + count].fill(value);
}

/// Whether the bytes of a run all have one value.
pub fn is_filled(bytes: &[u8], from: usize, count: usize, value: u8) -> bool
    requires { from + count ≤ length bytes.now }
    ensures { result ≡ list_all (nat_eq value) (slice from count bytes.now) }
{
    bytes[from..from + count].iter().all(|&byte| byte == value)
}

/// The bytes of a block go with it, from a place of `held` bytes to one of `room`. If it is the same place, only what is past `room` is zeroed; else the two
/// have no byte in common, the new one is no shorter, and the old one is zeroed.
pub fn move_bytes(bytes: &mut [u8], from: usize, held: usize, to: usize, room: usize)
    requires from { from + held ≤ length bytes.old }
    requires to { to + room ≤ length bytes.old }
    requires apart { (from == to || (nat_le held room && disjoint from held to room)) ≡ true }
    ensures { bytes.new ≡ moved from held to room bytes.old }
{
    if from != to {
        bytes.copy_within(from..from + held, to);
        fill(bytes, from, held, 0);
    } else if room < held {
        fill(bytes, from + room, held - room, 0);
    }
}
