// The opening record: a is n, and b is t.
ghost use Rattle.std.specs.Prelude.{◌≡◌};
ghost use Rattle.simulate.specs.Output.{opening_of};

use bench::Bench;
use refusal::Refusal;

// Any bytes.
pub fn opening(bytes: &[u8]) -> Result<Bench, Refusal>
    ensures { result ≡ opening_of bytes.now }
{
    let [kind, n, t, r, v0, v1, v2, v3] = *bytes else {
        return Err(Refusal::Length);
    };
    if kind != 0 {
        return Err(Refusal::Kind);
    }
    if r != 0 || u32::from_le_bytes([v0, v1, v2, v3]) != 0 {
        return Err(Refusal::Field);
    }
    Bench::open(n, t)
}
