// Numbers into a lent slice, and a lent slice cleared.
#![tactic(auto)]

ghost use Rattle.std.specs.Prelude.{◌≡◌, length, replicate};
ghost use Rattle.meaning.specs.Scalar.{zero64};
ghost use Rattle.buffer.specs.Pasted.{pasted};

// Puts the first n numbers of src into out from index at on, or leaves out as it is where they do not fit.
pub fn put(src: &[f64], n: usize, out: &mut [f64], at: usize)
    ensures { out.new ≡ pasted src.now n out.old at }
{
    if n <= src.len() && at <= out.len() && n <= out.len() - at {
        out[at..at + n].copy_from_slice(&src[..n]);
    }
}

// Every number +0.0.
// Stays: the generic function is `fill`; what is left of these two says which zero.
pub fn clear(t: &mut [f64])
    ensures { t.new ≡ replicate (length t.old) zero64 }
{
    t.fill(0.0);
}

// Every byte 0.
pub fn clear_bytes(t: &mut [u8])
    ensures { t.new ≡ replicate (length t.old) 0 }
{
    t.fill(0);
}
