// Words copied from one slice to another.
#![tactic(auto)]

ghost use Rattle.std.specs.Prelude.{◌≡◌, length};

// Makes the room the list; the two have one length. It is a loop of its own, since the library's `copy_from_slice` of words makes the archive ask
// the C library for `memmove`, which it does not ask for otherwise.
pub fn copy(list: &[u64], room: &mut [u64])
    requires { length room.old ≡ length list.now }
    ensures { room.new ≡ list.now }
{
    for i in 0..list.len() {
        room[i] = list[i];
    }
}
