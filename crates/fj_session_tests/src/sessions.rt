//! Whole sessions, of each kind of question and of each kind of fault.
use crate::running::{RUN, Row, all_end};
use std::test::Fail;

/// Parts of polynomials and nu.
static POLYNOMIALS: [Row<'static>; 3] = [
    (
        RUN,
        b"ring 3 x, y\npoly f = 2*x^4*y+x*y+y^3\nask parts 1 f\nask parts 0 f\n",
        0,
        b"1: part (0,0) = y\n1: part (1,1) = 2*x+1\n2: part (0,0) = 2*x^4*y+y^3+x*y\n",
    ),
    (
        RUN,
        b"ring 2 x\npoly z = x-x\nask parts 1 z\n",
        0,
        b"1: none\n",
    ),
    (
        RUN,
        b"ring 5 x, y\npoly f = x^2+y^3\nideal J = (x, y)\nask nu 0 f J\nask nu 1 f J\nask nu 2 f J\n",
        0,
        b"1: nu 0\n2: nu 3\n3: nu 19\n",
    ),
];

/// What is asked of ideals, in each printing order, and what stops.
static IDEALS: [Row<'static>; 6] = [
    (
        RUN,
        b"ring 5 x, y\nideal J = (x^2, x*y)\nideal K = (x)\nideal Z = (0)\npoly h = x^2*y\nideal L = (x*y, x^2+x*y)\nask colon J K\nask colon J Z\nask colon Z K\nask sum J K\nask product J K\nask meet J K\nask same J L\nask same J K\nask member h J\n",
        0,
        b"1: (y, x)\n2: (1)\n3: (0)\n4: (x)\n5: (x^2*y, x^3)\n6: (x*y, x^2)\n7: yes\n8: no\n9: yes\n",
    ),
    (
        RUN,
        b"ring 2 x, y\nideal J = (x^2+y, x*y+1)\nbudget 1\nask basis J\nbudget 3\nask basis J\norder lex\nbudget 100\nask basis J\n",
        3,
        b"1: stopped pairs\n2: (y^2+x, x*y+1, x^2+y)\n3: (y^3+1, x+y^2)\n",
    ),
    (
        RUN,
        b"ring 2 x, y, z\nideal J = (x*z+y^2)\nask basis J\norder grlex\nask basis J\n",
        0,
        b"1: (y^2+x*z)\n2: (x*z+y^2)\n",
    ),
    (
        RUN,
        b"ring 13 x\nideal J = (x^1000)\nask power 8 J\nask power 9 J\n",
        3,
        b"1: (x^815730721000)\n2: stopped high\n",
    ),
    (
        RUN,
        b"ring 2 x, y\nideal J = (x^3, x*y^2)\nask root 1 J\nask root 0 J\nask power 1 J\n",
        0,
        b"1: (y, x)\n2: (x*y^2, x^3)\n3: (x^2*y^4, x^6)\n",
    ),
    (
        RUN,
        b"ring 2 x, y\nideal J = (x^2+y, x*y+1)\npoly f = x\nbudget 1\nask member f J\nask parts 0 f\n",
        3,
        b"1: stopped pairs\n2: part (0,0) = x\n",
    ),
];

/// Test ideals, left limits, and F-jumping numbers.
static LIMITS: [Row<'static>; 6] = [
    (
        RUN,
        b"ring 5 x, y\npoly f = x^2+y^3\nask test f 4/5\nask left f 4/5\nask isjump f 4/5\nask isjump f 3/4\nask regular f 3/4\nask regular f 4/5\n",
        0,
        b"1: (y, x)\n2: (1)\n3: yes\n4: no\n5: yes\n6: no\n",
    ),
    (
        RUN,
        b"ring 2 x\npoly f = x\nask test f 0\nask test f 8\nask left f 8\n",
        0,
        b"1: (1)\n2: (x^8)\n3: (x^7)\n",
    ),
    (
        RUN,
        b"ring 2 x, y\npoly f = x^2+y^3\nask jumps f 2\n",
        0,
        b"1: jump 1/2 = (y, x)\n1: jump 1 = (y^3+x^2)\n1: complete\n",
    ),
    (
        RUN,
        b"ring 7 x, y\npoly f = x^2+y^3\nask jumps f 1\n",
        0,
        b"1: jump 5/6 = (y, x)\n1: jump 1 = (y^3+x^2)\n1: complete\n",
    ),
    (
        RUN,
        b"ring 2 x\npoly f = x^5\nask jumps f 2\nask jumps f 4\n",
        0,
        b"1: jump 1 = (x^5)\n1: open (0, 1/3)\n1: open (1/3, 1/2)\n1: open (1/2, 2/3)\n1: open (2/3, 1)\n1: incomplete\n2: jump 1/5 = (x)\n2: jump 2/5 = (x^2)\n2: jump 3/5 = (x^3)\n2: jump 4/5 = (x^4)\n2: jump 1 = (x^5)\n2: complete\n",
    ),
    (
        RUN,
        b"ring 3 x, y, z\npoly f = (x+y+z)^3\nask jumps f 2\n",
        0,
        b"1: jump 1/3 = (x+y+z)\n1: jump 2/3 = (x^2+2*x*y+y^2+2*x*z+2*y*z+z^2)\n1: jump 1 = (x^3+y^3+z^3)\n1: complete\n",
    ),
];

/// F-thresholds at points and ideals.
static THRESHOLDS: [Row<'static>; 3] = [
    (
        RUN,
        b"ring 5 x, y, z\npoly f = x^3+y^3+z^3\npoint O = (0, 0, 0)\nask threshold f O 1\nask threshold f O 2\n",
        0,
        b"1: between 3/4 and 1\n2: threshold 4/5\n",
    ),
    (
        RUN,
        b"ring 17 x, y\npoly f = x^2+y^3\npoint O = (0, 0)\nask threshold f O 2\n",
        0,
        b"1: threshold 14/17\n",
    ),
    (
        RUN,
        b"ring 5 x\npoly f = x+1\npoint P = (0)\nideal J = (1)\nideal K = (x)\nask threshold f P 1\nask threshold f J 1\nask threshold f K 1\nask nu 1 f J\nask nu 1 f K\n",
        0,
        b"1: off\n2: unit\n3: notin\n4: unit\n5: notin\n",
    ),
];

/// F-purity, and compatible ideals.
static SPLITTINGS: [Row<'static>; 5] = [
    (
        RUN,
        b"ring 5 x, y, z\nideal F = (x^3+y^3+z^3)\nask fpure F\n",
        0,
        b"1: no\n",
    ),
    (
        RUN,
        b"ring 7 x, y, z\nideal F = (x^3+y^3+z^3)\nask fpure F\n",
        0,
        b"1: yes\n",
    ),
    (
        RUN,
        b"ring 2 x, y, z\nideal A = (x*y, x*z, y*z)\nideal B = (x^2)\nideal C = (0)\nideal D = (1)\nask fpure A\nask fpure B\nask fpure C\nask fpure D\nask split B\n",
        0,
        b"1: yes\n2: no\n3: yes\n4: yes\n5: (x)\n",
    ),
    (
        RUN,
        b"ring 2 x, y\nideal J = (x^2*y+x^2)\npoint P = (1, 1)\npoint Q = (0, 0)\npoint R = (1, 0)\nask fpure J\nask fpure J P\nask fpure J Q\nask fpure J R\n",
        0,
        b"1: no\n2: yes\n3: no\n4: off\n",
    ),
    (
        RUN,
        b"ring 3 x, y\npoly u = x^2*y^2\nideal J = (x)\nideal K = (x+y)\nask compatible 1 u J\nask compatible 1 u K\n",
        0,
        b"1: yes\n2: no\n",
    ),
];

/// Faults of each kind but Long and Many. What stands before a fault isn't answered.
static FAULTS: [Row<'static>; 23] = [
    (RUN, b"ring 4 x\n", 2, b"fault Prime at 1:6\n"),
    (RUN, b"ring 37 x\n", 2, b"fault Prime at 1:6\n"),
    (RUN, b"ring 2 x, x\n", 2, b"fault Taken at 1:11\n"),
    (
        RUN,
        b"ring 2 a, b, c, d, e, f, g, h\n",
        2,
        b"fault Vars at 1:29\n",
    ),
    (RUN, b"poly f = x\n", 2, b"fault NoRing at 1:1\n"),
    (
        RUN,
        b"ring 2 x\npoly f = y\n",
        2,
        b"fault Unknown at 2:10\n",
    ),
    (RUN, b"ring 2 x\npoly f = x&x\n", 2, b"fault Byte at 2:11\n"),
    (
        RUN,
        b"ring 2 x\npoly f = x^\n",
        2,
        b"fault Syntax at 2:12\n",
    ),
    (
        RUN,
        b"ring 2 x\npoly f = x^1001\n",
        2,
        b"fault Large at 2:12\n",
    ),
    (
        RUN,
        b"ring 2 x\npoly f = 4294967296*x\n",
        2,
        b"fault Wide at 2:10\n",
    ),
    (
        RUN,
        b"ring 2 x\npoly f = 1\nask test f 1\n",
        2,
        b"fault Constant at 3:10\n",
    ),
    (
        RUN,
        b"ring 2 x\nideal J = (x)\nask test J 1\n",
        2,
        b"fault Kind at 3:10\n",
    ),
    (
        RUN,
        b"ring 2 x, y\npoint P = (1)\n",
        2,
        b"fault Arity at 2:13\n",
    ),
    (
        RUN,
        b"ring 2 x\npoly f = x\nask test f 9\n",
        2,
        b"fault Range at 3:12\n",
    ),
    (
        RUN,
        b"ring 2 x\npoly f = x\nask parts 1 f\nask parts 13 f\n",
        2,
        b"fault Range at 4:11\n",
    ),
    (RUN, b"ring 2 x\nring 2 x\n", 2, b"fault Syntax at 2:1\n"),
    (RUN, b"ring 2 x\nbudget 0\n", 2, b"fault Range at 2:8\n"),
    (
        RUN,
        b"ring 2 x\npoly f = x\nask test f 1/0\n",
        2,
        b"fault Range at 3:14\n",
    ),
    (
        RUN,
        b"ring 2 x\npoly f = x\nlet T = jumps f 1\n",
        2,
        b"fault Syntax at 3:9\n",
    ),
    (RUN, b"let T = basis J\n", 2, b"fault NoRing at 1:1\n"),
    (RUN, b"", 2, b"fault NoRing at 1:1\n"),
    (RUN, b"ring 2 x\0\n", 2, b"fault Byte at 1:9\n"),
    (
        RUN,
        b"ring 2 x\npoly f = x\nask jumps f",
        2,
        b"fault Syntax at 3:12\n",
    ),
];

/// Carriage returns, tabs, comments, and a last line without its end.
static LAYOUTS: [Row<'static>; 3] = [
    (
        RUN,
        b"ring 2 x\r\npoly f = x\nask parts 0 f\n",
        0,
        b"1: part (0) = x\n",
    ),
    (
        RUN,
        b"ring\t2 x,y # a plane\r\n\n poly f=(x+y)^2*x#\xff\n#\nask parts 1 f",
        0,
        b"1: part (1,0) = x+y\n",
    ),
    (RUN, b"ring 2 x", 0, b""),
];

#[test]
fn sessions_are_answered(rt: HostRuntime) -> Result<(), Fail> {
    all_end(&rt, rt.alloc(), &POLYNOMIALS)?;
    all_end(&rt, rt.alloc(), &IDEALS)?;
    all_end(&rt, rt.alloc(), &LIMITS)?;
    all_end(&rt, rt.alloc(), &THRESHOLDS)?;
    all_end(&rt, rt.alloc(), &SPLITTINGS)?;
    all_end(&rt, rt.alloc(), &LAYOUTS)
}

#[test]
fn faults_are_told(rt: HostRuntime) -> Result<(), Fail> {
    all_end(&rt, rt.alloc(), &FAULTS)
}
