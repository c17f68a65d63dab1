//! A whole session by its lines: cusp, node, Fermat cubic and coordinate axes over GF(7), of which four questions show five
//! ideals.
use std::alloc::{AllocError, Global};

/// The lines, each with the text of its answer.
pub(crate) static LINES: [(&[u8], &[u8]); 19] = [
    (b"ring 7 x, y, z\n", b""),
    (b"# cusp, node, Fermat cubic, axes\n", b""),
    (b"poly cusp = x^2-y^3\n", b""),
    (b"poly node = y^2-x^3-x^2\n", b""),
    (b"poly fermat = x^3+y^3+z^3\n", b""),
    (b"ideal F = (x^3+y^3+z^3)\n", b""),
    (b"ideal axes = (x*y, x*z, y*z)\n", b""),
    (b"ideal m = (x, y, z)\n", b""),
    (b"point O = (0, 0, 0)\n", b""),
    (b"ask threshold cusp O 1\n", b"1: threshold 5/6\n"),
    (b"ask test cusp 5/6\n", b"2: (y, x)\n"),
    (
        b"ask jumps cusp 1\n",
        b"3: jump 5/6 = (y, x)\n3: jump 1 = (y^3+6*x^2)\n3: complete\n",
    ),
    (b"ask threshold node O 1\n", b"4: threshold 1\n"),
    (
        b"ask jumps node 1\n",
        b"5: jump 1 = (x^3+x^2+6*y^2)\n5: complete\n",
    ),
    (b"ask fpure F\n", b"6: yes\n"),
    (b"ask fpure axes\n", b"7: yes\n"),
    (b"ask threshold fermat O 1\n", b"8: threshold 1\n"),
    (b"ask split axes\n", b"9: (1)\n"),
    (b"ask nu 1 cusp m\n", b"10: nu 5\n"),
];

/// How many certificates the answers have.
pub(crate) const CERTIFICATES: u64 = 5;

/// The session of all lines, and its output.
pub(crate) fn whole(alloc: Global) -> Result<(Vec<u8>, Vec<u8>), AllocError> {
    let mut session = Vec::new(alloc);
    let mut output = Vec::new(alloc);
    for (line, text) in LINES {
        session.extend_from_slice(line)?;
        output.extend_from_slice(text)?;
    }
    Ok((session, output))
}
