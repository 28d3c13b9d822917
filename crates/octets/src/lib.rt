// Numbers as bytes, two's complement and least byte first: four bytes a number in, eight out.
#![tactic(auto)]

ghost use Rattle.std.specs.Prelude.{◌≡◌, ◌*◌, [], ◌∷◌, length};
ghost use Rattle.octets.specs.Bytes.{decode, encode};

// The numbers of four bytes each.
pub fn read(bytes: &[u8], out: &mut [i64])
    requires { length bytes.now ≡ 4 * length out.old }
    ensures { out.new ≡ decode bytes.now }
{
    let (fours, _) = bytes.as_chunks::<4>();

    // By index: under a `zip` of `iter_mut` no invariant can speak of `out`.
    for (i, v) in out.iter_mut().enumerate() {
        *v = entry(fours[i]);
    }
}

// The number of four bytes.
#[tactic(auto, using(crate::proofs::Bytes::decode_four))]
fn entry(four: [u8; 4]) -> i64
    ensures { (result ∷ []) ≡ decode four }
{
    i64::from(i32::from_le_bytes(four))
}

// The eight bytes of each number.
pub fn write(list: &[i64], out: &mut [u8])
    requires { length out.old ≡ 8 * length list.now }
    ensures { out.new ≡ encode list.now }
{
    // By ranges: the contracts of `as_chunks_mut` and `chunks_exact_mut` say nothing of what is written.
    for (i, &v) in list.iter().enumerate() {
        out[8 * i..8 * i + 8].copy_from_slice(&v.to_le_bytes());
    }
}
