//! Sessions, and sessions with their first faults.
use fj_plain::OrderName;
use fj_script::FaultKind::{
    Arity, Byte, Constant, Kind, Large, Long, Many, NoRing, Prime, Range, Syntax, Taken, Unknown,
    Vars, Wide,
};
use fj_script::{
    AskedList, Fault, FaultKind, Question, Script, ScriptFault, Value, ValueList, read_script,
};
use std::alloc::{AllocError, Global};
use std::process::Abort;
use std::test::Fail;

// A session, and its first fault by kind, line and column.
pub(crate) type Row = (&'static str, FaultKind, u32, u32);

// A session in which the lines are parted by `|`.
pub(crate) fn bytes(alloc: Global, session: &str) -> Result<Vec<u8>, AllocError> {
    let mut bytes = Vec::new(alloc);
    for b in session.as_bytes() {
        bytes.push(if *b == b'|' { b'\n' } else { *b })?;
    }
    Ok(bytes)
}

// The bytes have this first fault.
pub(crate) fn fails(
    rt: &impl Abort,
    alloc: Global,
    session: &[u8],
    row: (FaultKind, u32, u32),
) -> Result<(), Fail> {
    let (kind, line, column) = row;
    match read_script(alloc, session) {
        Err(ScriptFault::At(fault)) => {
            assert!(rt; fault == Fault { kind, line, column }, "{fault:?}");
        }
        _ => assert!(rt; false, "{kind:?} at {line}:{column}"),
    }
    Ok(())
}

// The session is accepted.
pub(crate) fn reads(rt: &impl Abort, alloc: Global, session: &str) -> Result<Script, Fail> {
    match read_script(alloc, &bytes(alloc, session)?) {
        Ok(script) => Ok(script),
        Err(fault) => panic!(rt; "{session}: {fault:?}"),
    }
}

// Sessions and their first faults.
static FAULTS: [Row; 192] = [
    ("", NoRing, 1, 1),
    ("ring 4 x", Prime, 1, 6),
    ("ring 2 x, x", Taken, 1, 11),
    ("ring 2 a, b, c, d, e, f, g, h", Vars, 1, 29),
    ("poly f = x", NoRing, 1, 1),
    ("ring 2 x|poly f = y", Unknown, 2, 10),
    ("ring 2 x|poly f = x&x", Byte, 2, 11),
    ("ring 2 x|poly f = x^", Syntax, 2, 12),
    ("ring 2 x|poly f = x^1001", Large, 2, 12),
    ("ring 2 x|poly f = 4294967296*x", Wide, 2, 10),
    ("ring 2 x|poly f = 1|ask test f 1", Constant, 3, 10),
    ("ring 2 x|ideal J = (x)|ask test J 1", Kind, 3, 10),
    ("ring 2 x, y|point P = (1)", Arity, 2, 13),
    ("ring 2 x|poly f = x|ask test f 9", Range, 3, 12),
    ("ring 2 x|poly f = x|ask jumps f", Syntax, 3, 12),
    ("ring 2 x|poly f = 2x", Syntax, 2, 11),
    ("ring2 x", Syntax, 1, 1),
    ("Ring 2 x", Syntax, 1, 1),
    ("ring 2 x|ring = 1", Syntax, 2, 1),
    ("ring 2 x|poly f = x^#2", Syntax, 2, 12),
    ("ring 2 x|poly f = x^  # 2", Syntax, 2, 12),
    ("ring 2 x|poly f = x^&", Byte, 2, 12),
    ("&", Byte, 1, 1),
    ("  |# c|\t&", Byte, 3, 2),
    ("ring 2 x;y", Byte, 1, 9),
    ("ring 2 x.y", Byte, 1, 9),
    ("ring 2", Syntax, 1, 7),
    ("ring", Syntax, 1, 5),
    ("ring 2 x,", Syntax, 1, 10),
    ("ring 2 x y", Syntax, 1, 10),
    ("ring 2 x &", Byte, 1, 10),
    ("ring x", Syntax, 1, 6),
    ("ring 2 2", Syntax, 1, 8),
    ("ring 2, x", Syntax, 1, 7),
    ("||", NoRing, 1, 1),
    ("# ring 2 x", NoRing, 1, 1),
    (" |\t|  order lex", NoRing, 3, 3),
    ("poly &", NoRing, 1, 1),
    ("foo", Syntax, 1, 1),
    ("5", Syntax, 1, 1),
    ("=", Syntax, 1, 1),
    ("ring 2 x|foo", Syntax, 2, 1),
    ("ring 2 x| 5", Syntax, 2, 2),
    ("ring 2 x|ring 2 x", Syntax, 2, 1),
    ("ring 4294967296 x", Prime, 1, 6),
    ("ring 37 x", Prime, 1, 6),
    ("ring 2 a,b,c,d,e,f,g,a", Vars, 1, 22),
    ("ring 2 x, y|poly f = x^4294967296", Wide, 2, 12),
    ("ring 2 x, y|point P = ()", Syntax, 2, 12),
    ("ring 2 x, y|point P = (1,)", Syntax, 2, 14),
    ("ring 2 x, y|ask basis 4294967296", Syntax, 2, 11),
    ("ring 2 x, y|poly f = x 4294967296", Syntax, 2, 12),
    ("ring 2 x, y|ask parts zz f", Syntax, 2, 11),
    ("ring 2 x, y|poly x = y", Taken, 2, 6),
    ("ring 2 x, y|poly f = x|ideal f = (x)", Taken, 3, 7),
    ("ring 2 x, y|poly f = f", Unknown, 2, 10),
    ("ring 2 x, y|ideal J = (x, J)", Unknown, 2, 15),
    ("ring 2 x, y|ideal J = (x)|poly f = x*J", Kind, 3, 12),
    ("ring 2 x, y|poly f = x|poly g = f", Kind, 3, 10),
    ("ring 2 x, y|ask basis J", Unknown, 2, 11),
    ("ring 2 x, y|ask basis x", Kind, 2, 11),
    ("ring 2 x, y|poly f = x|ask basis f", Kind, 3, 11),
    ("ring 2 x, y|ideal J = (x)|ask parts 1 J", Kind, 3, 13),
    ("ring 2 x, y|poly", Syntax, 2, 5),
    ("ring 2 x, y|poly =", Syntax, 2, 6),
    ("ring 2 x, y|poly f", Syntax, 2, 7),
    ("ring 2 x, y|poly f x", Syntax, 2, 8),
    ("ring 2 x, y|poly f =", Syntax, 2, 9),
    ("ring 2 x, y|poly 2 = x", Syntax, 2, 6),
    ("ring 2 x, y|poly f = x y", Syntax, 2, 12),
    ("ring 2 x, y|order", Syntax, 2, 6),
    ("ring 2 x, y|order elim", Syntax, 2, 7),
    ("ring 2 x, y|order 2", Syntax, 2, 7),
    ("ring 2 x, y|order lex lex", Syntax, 2, 11),
    ("ring 2 x, y|order &", Byte, 2, 7),
    ("ring 2 x, y|budget", Syntax, 2, 7),
    ("ring 2 x, y|budget 0", Range, 2, 8),
    ("ring 2 x, y|budget 10000001", Range, 2, 8),
    ("ring 2 x, y|budget 4294967296", Wide, 2, 8),
    ("ring 2 x, y|budget -1", Syntax, 2, 8),
    ("ring 2 x, y|budget 1 1", Syntax, 2, 10),
    ("ring 2 x, y|budget x", Syntax, 2, 8),
    ("ring 2 x, y|ideal J = x", Syntax, 2, 11),
    ("ring 2 x, y|ideal J = ()", Syntax, 2, 12),
    ("ring 2 x, y|ideal J = (x", Syntax, 2, 13),
    ("ring 2 x, y|ideal J = (x,", Syntax, 2, 14),
    ("ring 2 x, y|ideal J = (x)+(y)", Syntax, 2, 14),
    ("ring 2 x, y|ideal J = (x y)", Syntax, 2, 14),
    ("ring 2 x, y|point P = (1,2,", Arity, 2, 15),
    ("ring 2 x, y|point P = (1,2,3)", Arity, 2, 15),
    ("ring 2 x, y|point P = (1,2", Syntax, 2, 15),
    ("ring 2 x, y|point P = (1", Syntax, 2, 13),
    ("ring 2 x, y|point P = (1 2)", Syntax, 2, 14),
    ("ring 2 x, y|point P = (--1, 0)", Syntax, 2, 13),
    ("ring 2 x, y|point P = (+1, 0)", Syntax, 2, 12),
    ("ring 2 x, y|point P = (-4294967296, 0)", Wide, 2, 13),
    ("ring 2 x, y|point P = (x, 0)", Syntax, 2, 12),
    ("ring 2 x, y|point P = (1, 0) 1", Syntax, 2, 18),
    ("ring 2 x, y|point P = (1, 0", Syntax, 2, 16),
    (
        "ring 2 x, y|poly f = x|poly c = 1|ideal J = (x)|point P = (0, 1)|ask test f 9 &",
        Range,
        6,
        12,
    ),
    (
        "ring 2 x, y|poly f = x|poly c = 1|ideal J = (x)|point P = (0, 1)|ask test f 9 x",
        Range,
        6,
        12,
    ),
    (
        "ring 2 x, y|poly f = x|poly c = 1|ideal J = (x)|point P = (0, 1)|ask test f 9/",
        Syntax,
        6,
        14,
    ),
    (
        "ring 2 x, y|poly f = x|poly c = 1|ideal J = (x)|point P = (0, 1)|ask test f 9/&",
        Byte,
        6,
        14,
    ),
    (
        "ring 2 x, y|poly f = x|poly c = 1|ideal J = (x)|point P = (0, 1)|ask test f 9/x",
        Syntax,
        6,
        14,
    ),
    ("ring 2 x, y|poly f = x^1000*x&", Large, 2, 17),
    ("ring 2 x, y|poly f = x^1000*x y", Large, 2, 17),
    ("ring 2 x, y|poly f = x^1000*x+zz", Large, 2, 17),
    ("ring 2 x, y|poly f = x^1000*x^", Syntax, 2, 19),
    ("ring 2 x, y|poly f = x^1000*x^&", Byte, 2, 19),
    ("ring 2 x, y|poly f = x^1000*x^y", Syntax, 2, 19),
    ("ring 2 x, y|poly f = x^1000*x^2", Large, 2, 19),
    ("ring 2 x, y|poly f = x^1000*(x", Syntax, 2, 19),
    ("ring 2 x, y|poly f = x^1000*(x)", Large, 2, 19),
    ("ring 2 x, y|poly f = x^1000*zz", Unknown, 2, 17),
    ("ring 2 x, y|poly f = 4294967296^1001", Wide, 2, 10),
    ("ring 2 x, y|poly f = x*-y", Syntax, 2, 12),
    ("ring 2 x, y|poly f = x--y", Syntax, 2, 12),
    ("ring 2 x, y|poly f = x^-1", Syntax, 2, 12),
    ("ring 2 x, y|poly f = +x", Syntax, 2, 10),
    ("ring 2 x, y|poly f = x^2^3", Syntax, 2, 13),
    ("ring 2 x, y|poly f = 1^1001", Large, 2, 12),
    (
        "ring 2 x, y|poly f = (((((((((((((((((((((((((((((((((((((((((((((((((((((((((((((((((x)))))))))))))))))))))))))))))))))))))))))))))))))))))))))))))))))",
        Large,
        2,
        74,
    ),
    (
        "ring 2 x, y|ideal J = ((((((((((((((((((((((((((((((((((((((((((((((((((((((((((((((((((x",
        Large,
        2,
        76,
    ),
    ("ring 2 x,y,z,w|poly f = (x+y+z+w)^32", Large, 2, 20),
    ("ring 2 x, y|poly f = x)", Syntax, 2, 11),
    (
        "ring 2 x, y|poly f = x|poly c = 1|ideal J = (x)|point P = (0, 1)|ask",
        Syntax,
        6,
        4,
    ),
    (
        "ring 2 x, y|poly f = x|poly c = 1|ideal J = (x)|point P = (0, 1)|ask 1",
        Syntax,
        6,
        5,
    ),
    (
        "ring 2 x, y|poly f = x|poly c = 1|ideal J = (x)|point P = (0, 1)|ask foo",
        Syntax,
        6,
        5,
    ),
    (
        "ring 2 x, y|poly f = x|poly c = 1|ideal J = (x)|point P = (0, 1)|ask &",
        Byte,
        6,
        5,
    ),
    (
        "ring 2 x, y|poly f = x|poly c = 1|ideal J = (x)|point P = (0, 1)|ask nu 13",
        Range,
        6,
        8,
    ),
    (
        "ring 2 x, y|poly f = x|poly c = 1|ideal J = (x)|point P = (0, 1)|ask threshold c J 0",
        Constant,
        6,
        15,
    ),
    (
        "ring 2 x, y|poly f = x|poly c = 1|ideal J = (x)|point P = (0, 1)|ask parts 13 f",
        Range,
        6,
        11,
    ),
    (
        "ring 2 x, y|poly f = x|poly c = 1|ideal J = (x)|point P = (0, 1)|ask parts -1 f",
        Syntax,
        6,
        11,
    ),
    (
        "ring 2 x, y|poly f = x|poly c = 1|ideal J = (x)|point P = (0, 1)|ask parts 1 f f",
        Syntax,
        6,
        15,
    ),
    (
        "ring 2 x, y|poly f = x|poly c = 1|ideal J = (x)|point P = (0, 1)|ask member J f",
        Kind,
        6,
        12,
    ),
    (
        "ring 2 x, y|poly f = x|poly c = 1|ideal J = (x)|point P = (0, 1)|ask member f f",
        Kind,
        6,
        14,
    ),
    (
        "ring 2 x, y|poly f = x|poly c = 1|ideal J = (x)|point P = (0, 1)|ask same J",
        Syntax,
        6,
        11,
    ),
    (
        "ring 2 x, y|poly f = x|poly c = 1|ideal J = (x)|point P = (0, 1)|ask same J P",
        Kind,
        6,
        12,
    ),
    (
        "ring 2 x, y|poly f = x|poly c = 1|ideal J = (x)|point P = (0, 1)|ask power 1",
        Syntax,
        6,
        12,
    ),
    (
        "ring 2 x, y|poly f = x|poly c = 1|ideal J = (x)|point P = (0, 1)|ask root J 1",
        Syntax,
        6,
        10,
    ),
    (
        "ring 2 x, y|poly f = x|poly c = 1|ideal J = (x)|point P = (0, 1)|ask test c 1",
        Constant,
        6,
        10,
    ),
    (
        "ring 2 x, y|poly f = x|poly c = 1|ideal J = (x)|point P = (0, 1)|ask test f",
        Syntax,
        6,
        11,
    ),
    (
        "ring 2 x, y|poly f = x|poly c = 1|ideal J = (x)|point P = (0, 1)|ask test f -1",
        Syntax,
        6,
        12,
    ),
    (
        "ring 2 x, y|poly f = x|poly c = 1|ideal J = (x)|point P = (0, 1)|ask test f 17/2",
        Range,
        6,
        15,
    ),
    (
        "ring 2 x, y|poly f = x|poly c = 1|ideal J = (x)|point P = (0, 1)|ask test f 9/1/1",
        Range,
        6,
        14,
    ),
    (
        "ring 2 x, y|poly f = x|poly c = 1|ideal J = (x)|point P = (0, 1)|ask test f 1/2/3",
        Syntax,
        6,
        15,
    ),
    (
        "ring 2 x, y|poly f = x|poly c = 1|ideal J = (x)|point P = (0, 1)|ask test f 4294967296/0",
        Wide,
        6,
        12,
    ),
    (
        "ring 2 x, y|poly f = x|poly c = 1|ideal J = (x)|point P = (0, 1)|ask test f 1/4294967296",
        Wide,
        6,
        14,
    ),
    (
        "ring 2 x, y|poly f = x|poly c = 1|ideal J = (x)|point P = (0, 1)|ask test f 1/65536",
        Range,
        6,
        14,
    ),
    (
        "ring 2 x, y|poly f = x|poly c = 1|ideal J = (x)|point P = (0, 1)|ask test f 1/0",
        Range,
        6,
        14,
    ),
    (
        "ring 2 x, y|poly f = x|poly c = 1|ideal J = (x)|point P = (0, 1)|ask test f 0/0",
        Range,
        6,
        14,
    ),
    (
        "ring 2 x, y|poly f = x|poly c = 1|ideal J = (x)|point P = (0, 1)|ask left f 0",
        Range,
        6,
        12,
    ),
    (
        "ring 2 x, y|poly f = x|poly c = 1|ideal J = (x)|point P = (0, 1)|ask left f 0/3",
        Range,
        6,
        14,
    ),
    (
        "ring 2 x, y|poly f = x|poly c = 1|ideal J = (x)|point P = (0, 1)|ask isjump f 0/3",
        Range,
        6,
        16,
    ),
    (
        "ring 2 x, y|poly f = x|poly c = 1|ideal J = (x)|point P = (0, 1)|ask jumps f 0",
        Range,
        6,
        13,
    ),
    (
        "ring 2 x, y|poly f = x|poly c = 1|ideal J = (x)|point P = (0, 1)|ask jumps f 17",
        Range,
        6,
        13,
    ),
    (
        "ring 2 x, y|poly f = x|poly c = 1|ideal J = (x)|point P = (0, 1)|ask jumps J 1",
        Kind,
        6,
        11,
    ),
    ("ring 3 x|poly f = x|ask jumps f 11", Range, 3, 13),
    ("ring 13 x|poly f = x|ask jumps f 5", Range, 3, 13),
    ("ring 17 x|poly f = x|ask jumps f 4", Range, 3, 13),
    ("ring 31 x|poly f = x|ask jumps f 4", Range, 3, 13),
    (
        "ring 2 x, y|poly f = x|poly c = 1|ideal J = (x)|point P = (0, 1)|ask nu 1 J J",
        Kind,
        6,
        10,
    ),
    (
        "ring 2 x, y|poly f = x|poly c = 1|ideal J = (x)|point P = (0, 1)|ask nu 1 c J",
        Constant,
        6,
        10,
    ),
    (
        "ring 2 x, y|poly f = x|poly c = 1|ideal J = (x)|point P = (0, 1)|ask threshold f f 1",
        Kind,
        6,
        17,
    ),
    (
        "ring 2 x, y|poly f = x|poly c = 1|ideal J = (x)|point P = (0, 1)|ask threshold f x 1",
        Kind,
        6,
        17,
    ),
    (
        "ring 2 x, y|poly f = x|poly c = 1|ideal J = (x)|point P = (0, 1)|ask threshold f 1 1",
        Syntax,
        6,
        17,
    ),
    (
        "ring 2 x, y|poly f = x|poly c = 1|ideal J = (x)|point P = (0, 1)|ask threshold f K 1",
        Unknown,
        6,
        17,
    ),
    (
        "ring 2 x, y|poly f = x|poly c = 1|ideal J = (x)|point P = (0, 1)|ask threshold f P 17",
        Range,
        6,
        19,
    ),
    (
        "ring 2 x, y|poly f = x|poly c = 1|ideal J = (x)|point P = (0, 1)|ask fpure",
        Syntax,
        6,
        10,
    ),
    (
        "ring 2 x, y|poly f = x|poly c = 1|ideal J = (x)|point P = (0, 1)|ask fpure P",
        Kind,
        6,
        11,
    ),
    (
        "ring 2 x, y|poly f = x|poly c = 1|ideal J = (x)|point P = (0, 1)|ask fpure J f",
        Kind,
        6,
        13,
    ),
    (
        "ring 2 x, y|poly f = x|poly c = 1|ideal J = (x)|point P = (0, 1)|ask fpure J 1",
        Syntax,
        6,
        13,
    ),
    (
        "ring 2 x, y|poly f = x|poly c = 1|ideal J = (x)|point P = (0, 1)|ask fpure J &",
        Byte,
        6,
        13,
    ),
    (
        "ring 2 x, y|poly f = x|poly c = 1|ideal J = (x)|point P = (0, 1)|ask fpure J P P",
        Syntax,
        6,
        15,
    ),
    (
        "ring 2 x, y|poly f = x|poly c = 1|ideal J = (x)|point P = (0, 1)|ask split J J",
        Syntax,
        6,
        13,
    ),
    (
        "ring 2 x, y|poly f = x|poly c = 1|ideal J = (x)|point P = (0, 1)|ask compatible 1 J J",
        Kind,
        6,
        18,
    ),
    (
        "ring 2 x, y|poly f = x|poly c = 1|ideal J = (x)|point P = (0, 1)|ask compatible 1 f P",
        Kind,
        6,
        20,
    ),
    ("ring 2 x, y|poly f = y+zz|ring 3 x", Unknown, 2, 12),
    ("ring 2 x,y#&|poly f = & # y", Byte, 2, 10),
    ("\u{feff}ring 2 x", Byte, 1, 1),
    ("ring 2 x\u{c}", Byte, 1, 9),
    ("ring 2 x\u{0}y", Byte, 1, 9),
    ("ring 2 x|\rpoly f =\ry", Unknown, 2, 11),
    ("ring 18446744073709551618 x", Prime, 1, 6),
    ("ring 2 x|poly f = g|poly g = x", Unknown, 2, 10),
    ("ring 2 x|ideal J = (x,)", Syntax, 2, 14),
    ("ring 2 x|poly z = x-x|ask test z 1", Constant, 3, 10),
    ("ring 2 x|ideal J = (x)|ask fpure J zz", Unknown, 3, 13),
    ("ring 2 x|ask Basis J", Syntax, 2, 5),
    ("ring 2 x|ask parts 4294967296 f", Wide, 2, 11),
    ("ring 2 x|poly f = x|ask jumps f 4294967296", Wide, 3, 13),
    ("ring 2 x|poly f = x|ask jumps f -1", Syntax, 3, 13),
];

// Sessions without a fault.
static ACCEPTED: [&'static str; 16] = [
    "ring 2x",
    "ring 02 x",
    "ring 2 ring, ask|poly poly = ring*ask|ask parts 1 poly",
    "ring 2 x\r|poly f = x \r|ask\tparts\r1 f # & done",
    "ring 2 x|poly f=x^0003",
    "ring 2 x|budget 00007|order lex|order grlex|order grevlex",
    "ring 2 x, y|poly f = ((((((((((((((((((((((((((((((((((((((((((((((((((((((((((((((((x))))))))))))))))))))))))))))))))))))))))))))))))))))))))))))))))",
    "ring 17 x|poly f = x|point P = (16)|ask jumps f 3|ask threshold f P 3",
    "ring 31 x|poly f = x|point P = (30)|ask jumps f 3|ask threshold f P 3",
    "ring 2 x, y|ideal J = ((((x))), 0)",
    "ring 2 x|poly f = x^1000*x^0|poly g = x^1000*0*x^1000|poly h = (x-x)*x^1000*x|poly z = 0^0|poly m = 00000000004294967295",
    "ring 2 x,y,z,w|poly f = (x+y+z+w)^16*(x+y+z+w)^16",
    "ring 2 x, y|poly f = x|poly c = 1|ideal J = (x)|point P = (0, 1)|point Q = (-0, - 5)|ask parts 0 c|ask parts 12 f|ask test f 0|ask test f 8|ask test f 2/131070|ask left f 1/65535|ask regular f 4294967295/4294967295|ask isjump f 0016/2|ask jumps f 16|ask nu 001 f J|ask threshold f J 1|ask threshold f P 1|ask fpure J|ask fpure J P|ask member c J|ask compatible 1 c J|ask split J|ask basis J|ask same J J|ask sum J J|ask product J J|ask meet J J|ask colon J J|ask power 12 J|ask root 0 J",
    "|#|ring 2 a, b, c, d, e, f, g#h",
    "ring 2 x|poly f = (x)+(x)+(x)+(x)+(x)+(x)+(x)+(x)+(x)+(x)+(x)+(x)+(x)+(x)+(x)+(x)+(x)+(x)+(x)+(x)+(x)+(x)+(x)+(x)+(x)+(x)+(x)+(x)+(x)+(x)+(x)+(x)+(x)+(x)+(x)+(x)+(x)+(x)+(x)+(x)+(x)+(x)+(x)+(x)+(x)+(x)+(x)+(x)+(x)+(x)+(x)+(x)+(x)+(x)+(x)+(x)+(x)+(x)+(x)+(x)+(x)+(x)+(x)+(x)+(x)",
    "ring 2 x, _1|poly z = 0|poly f = x+_1|ideal O = (0)|ideal U = (1)|budget 1|budget 10000000|ask parts 0 z|ask member z O|ask compatible 0 z U|ask nu 0 f O|ask threshold f U 1|ask power 0 U|ask regular f 0|ask test f 0/7",
];

#[test]
fn sessions_and_faults(rt: HostRuntime) -> Result<(), Fail> {
    let alloc = rt.alloc();
    for (session, kind, line, column) in &FAULTS {
        fails(&rt, alloc, &bytes(alloc, session)?, (*kind, *line, *column))?;
    }
    for session in &ACCEPTED {
        let _script = reads(&rt, alloc, session)?;
    }
    Ok(())
}

// A piece again and again.
fn repeated(alloc: Global, piece: &[u8], times: usize) -> Result<Vec<u8>, AllocError> {
    let mut all = Vec::new(alloc);
    for _ in 0..times {
        all.extend_from_slice(piece)?;
    }
    Ok(all)
}

#[test]
fn limits(rt: HostRuntime) -> Result<(), Fail> {
    let alloc = rt.alloc();
    fails(&rt, alloc, &repeated(alloc, b"#", 1048576)?, (NoRing, 1, 1))?;
    fails(&rt, alloc, &repeated(alloc, b"#", 1048577)?, (Long, 1, 1))?;
    fails(
        &rt,
        alloc,
        &repeated(alloc, b"\n", 1048576)?,
        (NoRing, 1, 1),
    )?;
    fails(&rt, alloc, &repeated(alloc, b"\n", 1048577)?, (Long, 1, 1))?;
    // so many names and questions
    let mut session = Vec::new(alloc);
    session.extend_from_slice(
        b"ring 2 x\nideal J = (x)\npoint P = (1)\nask basis J\nask basis J\n",
    )?;
    for i in 2..4096 {
        session.extend_from_slice(format!(in alloc;
            "poly n{i} = x\nask parts 1 n{i}\n"
        )?.as_bytes())?;
    }
    let script = read_script(alloc, &session);
    assert!(rt;
        script.is_ok_and(|script| script.env.values.len() == 4096 && script.asked.len() == 4096)
    );
    let asked = session.len();
    session.extend_from_slice(b"ask")?;
    fails(&rt, alloc, &session, (Many, 8194, 1))?;
    session.truncate(asked);
    session.extend_from_slice(b"poly n4095")?;
    fails(&rt, alloc, &session, (Taken, 8194, 6))?;
    session.truncate(asked);
    session.extend_from_slice(b" point n4096")?;
    fails(&rt, alloc, &session, (Many, 8194, 8))?;
    session.truncate(asked);
    session.extend_from_slice(b"poly 2")?;
    fails(&rt, alloc, &session, (Syntax, 8194, 6))?;
    Ok(())
}

#[test]
fn generators(rt: HostRuntime) -> Result<(), Fail> {
    let alloc = rt.alloc();
    let mut session = Vec::new(alloc);
    session.extend_from_slice(b"ring 2 x\nideal J = (x")?;
    session.extend_from_slice(&repeated(alloc, b",x", 255)?)?;
    let most = session.len();
    session.push(b')')?;
    assert!(rt; read_script(alloc, &session).is_ok());
    for rest in [",", ",&", ",x)"] {
        session.truncate(most);
        session.extend_from_slice(rest.as_bytes())?;
        fails(&rt, alloc, &session, (Many, 2, 523))?;
    }
    Ok(())
}

// The sum of the powers of x from 0 to 999.
const THOUSAND: &[u8] =
    b"(1+x)*(1+x^2)*(1+x^4)*(1+x^8+x^16+x^24+x^32)*(1+x^40+x^80+x^120+x^160)*(1+x^200+x^400+x^600+x^800)";

#[test]
fn a_million_terms(rt: HostRuntime) -> Result<(), Fail> {
    let alloc = rt.alloc();
    let mut session = Vec::new(alloc);
    session.extend_from_slice(b"ring 13 x\n")?;
    for i in 0..1000 {
        session.extend_from_slice(format!(in alloc; "poly n{i} = ")?.as_bytes())?;
        session.extend_from_slice(THOUSAND)?;
        session.push(b'\n')?;
    }
    session.extend_from_slice(b"poly f = x - x\npoint P = (1)\n")?;
    assert!(rt; read_script(alloc, &session).is_ok());
    // the term too many is known before the bad byte, and at its place Large is higher
    let full = session.len();
    session.extend_from_slice(b"ideal J = (0, (x) &")?;
    fails(&rt, alloc, &session, (Many, 1004, 17))?;
    session.truncate(full);
    session.extend_from_slice(b"poly g = x^1000*x")?;
    fails(&rt, alloc, &session, (Large, 1004, 17))?;
    Ok(())
}

#[test]
fn values_and_questions(rt: HostRuntime) -> Result<(), Fail> {
    let alloc = rt.alloc();
    let script = reads(
        &rt,
        alloc,
        "ring 3 x, y, z|ideal J = (x*y, 0, -1)|poly f = x*y+4*x^3+y^2|order lex|ask fpure J|budget 7|point P = (-1, 5, -0)|ask threshold f P 2|ask test f 6/8|",
    )?;
    holds(&rt, &script)
}

// What that session holds.
fn holds(rt: &impl Abort, script: &Script) -> Result<(), Fail> {
    assert_eq!(rt; script.env.p, 3);
    assert_eq!(rt; script.env.vars.len(), 3);
    declared(rt, &script.env.values)?;
    questions(rt, &script.asked)
}

// The values of that session.
fn declared(rt: &impl Abort, values: &ValueList) -> Result<(), Fail> {
    assert_eq!(rt; values.len(), 3);
    if let (name, Value::Poly(f)) = values.get(1) {
        assert_eq!(rt; name, "f");
        assert_eq!(rt; f.len(), 3);
        assert_eq!(rt; f.get(0).exps, [3, 0, 0, 0, 0, 0, 0, 0]);
        assert_eq!(rt; f.get(1).exps, [1, 1, 0, 0, 0, 0, 0, 0]);
        assert_eq!(rt; f.get(2).exps, [0, 2, 0, 0, 0, 0, 0, 0]);
    } else {
        panic!(rt; "f is a polynomial");
    }
    if let (_, Value::Ideal(j)) = values.get(0) {
        assert_eq!(rt; j.len(), 3);
        assert_eq!(rt; j.get(1).len(), 0);
        let last = j.get(2);
        assert_eq!(rt; last.len(), 1);
        assert_eq!(rt; last.get(0).rank, 2);
    } else {
        panic!(rt; "J is an ideal");
    }
    if let (_, Value::Point(p)) = values.get(2) {
        assert_eq!(rt; p.len(), 3);
        assert_eq!(rt; *p.get(0), 2);
        assert_eq!(rt; *p.get(1), 2);
        assert_eq!(rt; *p.get(2), 0);
    } else {
        panic!(rt; "P is a point");
    }
    Ok(())
}

// The questions of that session.
fn questions(rt: &impl Abort, asked: &AskedList) -> Result<(), Fail> {
    assert_eq!(rt; asked.len(), 3);
    let pure = asked.get(0);
    assert_eq!(rt; pure.number, 1);
    assert_eq!(rt; pure.order, OrderName::Lex);
    assert_eq!(rt; pure.budget, 100000);
    assert!(rt; matches!(pure.question, Question::Pure { j: 0 }));
    let threshold = asked.get(1);
    assert_eq!(rt; threshold.number, 2);
    assert_eq!(rt; threshold.budget, 7);
    assert!(rt;
        matches!(
            threshold.question,
            Question::ThresholdAt { f: 1, at: 2, e: 2 }
        )
    );
    if let Question::Test { f, t } = asked.get(2).question {
        assert_eq!(rt; f, 1);
        assert_eq!(rt; t.num(), 3);
        assert_eq!(rt; t.den(), 4);
    } else {
        panic!(rt; "a test ideal");
    }
    Ok(())
}
