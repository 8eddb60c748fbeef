ghost use Rattle.std.specs.Prelude.{◌≡◌, ◌≤◌, length, replicate};

// Zeroes the bytes and answers one of them, which is 0. A compiler that does not know which one is read keeps all the
// zeroes; it would leave them out where nothing read them.
fn zeroed(bytes: &mut [u8], at: u8) -> u8
    requires { 256 ≤ length bytes.old }
    ensures answer { result ≡ 0 }
    ensures bytes { bytes.new ≡ replicate (length bytes.old) 0 }
{
    bytes.fill(0);
    bytes[at as usize]
}

// Zeroes the bytes, and then room below them on the stack in so many steps. Each step is lent the room of the one before, so
// that it stays a call of its own, with a frame further down.
fn cover(steps: u8, at: u8, bytes: &mut [u8]) -> u8
    requires { 256 ≤ length bytes.old }
    ensures answer { result ≡ 0 }
    ensures bytes { bytes.new ≡ replicate (length bytes.old) 0 }
{
    let zero = zeroed(bytes, at);
    if steps == 0 {
        return zero;
    }
    let mut room = [0u8; 1800];
    zero + cover(steps - 1, at, &mut room)
}

// Zeroes the stack where the calls before this one had their keys and texts. That it does so is no part of the contract,
// which cannot speak of dead stack; it is measured. The answer is 0 for every `at`, and the caller has to use it, or the
// compiler leaves the call out.
pub fn cover_stack(at: u8) -> u8
    ensures { result ≡ 0 }
{
    let mut room = [0u8; 256];
    cover(2, at, &mut room)
}
