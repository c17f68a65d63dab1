//! Sessions with names that stand for the answers of questions, and their first faults.
use super::sessions::{Row, bytes, fails, reads};
use fj_script::FaultKind::{
    Byte, Constant, Kind, Many, NoRing, Range, Syntax, Taken, Unknown, Wide,
};
use fj_script::{Question, Value, ValueList, read_script};
use std::process::Abort;
use std::test::Fail;

// Sessions and their first faults.
static FAULTS: [Row; 8] = [
    ("let T = basis J", NoRing, 1, 1),
    ("let", NoRing, 1, 1),
    ("let &", NoRing, 1, 1),
    ("let = 5", NoRing, 1, 1),
    (" |# c|  let T = basis J", NoRing, 3, 3),
    ("Let T = basis J", Syntax, 1, 1),
    ("ring 2 x|poly f = x|let T = jumps f 1", Syntax, 3, 9),
    ("ring 2 x|let T = basis J|ideal J = (x)", Unknown, 2, 15),
];

// Six lines, and what may follow them with the first fault of the session.
const NAMES: &str =
    "ring 2 x, y|poly f = x|poly c = 1|ideal J = (x)|point P = (0, 1)|let T = basis J|";

static FOLLOWING: [Row; 122] = [
    ("Let U = basis J", Syntax, 7, 1),
    ("lets", Syntax, 7, 1),
    ("let", Syntax, 7, 4),
    ("let =", Syntax, 7, 5),
    ("let 2 = basis J", Syntax, 7, 5),
    ("let &", Byte, 7, 5),
    ("let U", Syntax, 7, 6),
    ("let U basis J", Syntax, 7, 7),
    ("let U , basis J", Syntax, 7, 7),
    ("let U =", Syntax, 7, 8),
    ("let U = # basis J", Syntax, 7, 8),
    ("let x = basis J", Taken, 7, 5),
    ("let f = basis J", Taken, 7, 5),
    ("let J = basis J", Taken, 7, 5),
    ("let T = basis J", Taken, 7, 5),
    ("let P", Taken, 7, 5),
    ("let J &", Taken, 7, 5),
    ("poly T = x", Taken, 7, 6),
    ("ideal T = (x)", Taken, 7, 7),
    ("point T = (0, 0)", Taken, 7, 7),
    ("let U = parts 1 f", Syntax, 7, 9),
    ("let U = member f J", Syntax, 7, 9),
    ("let U = same J J", Syntax, 7, 9),
    ("let U = isjump f 1", Syntax, 7, 9),
    ("let U = regular f 1", Syntax, 7, 9),
    ("let U = jumps f 1", Syntax, 7, 9),
    ("let U = nu 1 f J", Syntax, 7, 9),
    ("let U = threshold f J 1", Syntax, 7, 9),
    ("let U = threshold f P 1", Syntax, 7, 9),
    ("let U = fpure J", Syntax, 7, 9),
    ("let U = fpure J P", Syntax, 7, 9),
    ("let U = compatible 1 f J", Syntax, 7, 9),
    ("let U = parts", Syntax, 7, 9),
    ("let U = same", Syntax, 7, 9),
    ("let U = Basis J", Syntax, 7, 9),
    ("let U = foo J", Syntax, 7, 9),
    ("let U = U", Syntax, 7, 9),
    ("let U = T", Syntax, 7, 9),
    ("let U = let", Syntax, 7, 9),
    ("let U = ask basis J", Syntax, 7, 9),
    ("let U = J", Syntax, 7, 9),
    ("let U = 5", Syntax, 7, 9),
    ("let U = (J)", Syntax, 7, 9),
    ("let U = = basis J", Syntax, 7, 9),
    ("let U = -1", Syntax, 7, 9),
    ("let U = &", Byte, 7, 9),
    ("let U = basis U", Unknown, 7, 15),
    ("let U = sum U J", Unknown, 7, 13),
    ("let U = sum J U", Unknown, 7, 15),
    ("let U = power 1 U", Unknown, 7, 17),
    ("let U = test U 1", Unknown, 7, 14),
    ("let U = split U", Unknown, 7, 15),
    ("let U = colon V J|let V = basis J", Unknown, 7, 15),
    ("let U = test zz 1", Unknown, 7, 14),
    ("let U = basis f", Kind, 7, 15),
    ("let U = basis c", Kind, 7, 15),
    ("let U = basis P", Kind, 7, 15),
    ("let U = basis x", Kind, 7, 15),
    ("let U = sum J f", Kind, 7, 15),
    ("let U = product P J", Kind, 7, 17),
    ("let U = meet J y", Kind, 7, 16),
    ("let U = colon J c", Kind, 7, 17),
    ("let U = power 1 f", Kind, 7, 17),
    ("let U = root 1 P", Kind, 7, 16),
    ("let U = split f", Kind, 7, 15),
    ("let U = test J 1", Kind, 7, 14),
    ("let U = left P 1", Kind, 7, 14),
    ("let U = test x 1", Kind, 7, 14),
    ("let U = test T 1", Kind, 7, 14),
    ("let U = left T 1", Kind, 7, 14),
    ("poly g = T", Kind, 7, 10),
    ("ideal K = (x, y*T)", Kind, 7, 17),
    ("ask parts 1 T", Kind, 7, 13),
    ("ask member T J", Kind, 7, 12),
    ("ask nu 1 T J", Kind, 7, 10),
    ("ask jumps T 1", Kind, 7, 11),
    ("ask threshold T J 1", Kind, 7, 15),
    ("ask fpure J T", Kind, 7, 13),
    ("ask compatible 1 T J", Kind, 7, 18),
    ("let U = test c 1", Constant, 7, 14),
    ("let U = left c 1", Constant, 7, 14),
    ("let U = power 13 J", Range, 7, 15),
    ("let U = root 13 J", Range, 7, 14),
    ("let U = test f 9", Range, 7, 16),
    ("let U = test f 9 &", Range, 7, 16),
    ("let U = test f 9 x", Range, 7, 16),
    ("let U = test f 17/2", Range, 7, 19),
    ("let U = test f 1/65536", Range, 7, 18),
    ("let U = test f 1/0", Range, 7, 18),
    ("let U = left f 0", Range, 7, 16),
    ("let U = left f 0 &", Range, 7, 16),
    ("let U = left f 0/3", Range, 7, 18),
    ("let U = left f 0/0", Range, 7, 18),
    ("let U = power 4294967296 J", Wide, 7, 15),
    ("let U = root 4294967296 J", Wide, 7, 14),
    ("let U = test f 4294967296/0", Wide, 7, 16),
    ("let U = left f 1/4294967296", Wide, 7, 18),
    ("let U = basis", Syntax, 7, 14),
    ("let U = basis J J", Syntax, 7, 17),
    ("let U = basis 5", Syntax, 7, 15),
    ("let U = basis J, J", Syntax, 7, 16),
    ("let U = sum J", Syntax, 7, 14),
    ("let U = meet J 1", Syntax, 7, 16),
    ("let U = power J 1", Syntax, 7, 15),
    ("let U = power 1", Syntax, 7, 16),
    ("let U = power -1 J", Syntax, 7, 15),
    ("let U = test f", Syntax, 7, 15),
    ("let U = test f -1", Syntax, 7, 16),
    ("let U = test f f", Syntax, 7, 16),
    ("let U = test f 9/", Syntax, 7, 18),
    ("let U = test f 9/x", Syntax, 7, 18),
    ("let U = test f 1/2/3", Syntax, 7, 19),
    ("let U = left f 0/", Syntax, 7, 18),
    ("let U = left f 0/x", Syntax, 7, 18),
    ("let U = left f 1 1", Syntax, 7, 18),
    ("let U = split J J", Syntax, 7, 17),
    ("ask let U = basis J", Syntax, 7, 5),
    ("ask basis T T", Syntax, 7, 13),
    ("let U = basis &", Byte, 7, 15),
    ("let U = left f 0/&", Byte, 7, 18),
    ("let U = test f 9/&", Byte, 7, 18),
    ("let U = split J &", Byte, 7, 17),
];

// Sessions without a fault.
static ACCEPTED: [&'static str; 4] = [
    "ring 2 x, y|poly f = x|ideal J = (x)|point P = (0, 0)|let A = basis J|let B = sum J A|let C = product B J|let D = meet C A|let E = colon D D|let F = power 12 E|let G = root 0 F|let H = test f 0|let I = left f 8|let K = split I|ask basis A|ask member f B|ask same C D|ask sum E F|ask product G H|ask meet I K|ask colon A B|ask power 1 C|ask root 1 D|ask nu 1 f E|ask threshold f F 1|ask fpure G|ask fpure H P|ask split K|ask compatible 1 f A",
    "ring 2 let, sum|ideal basis = (let+sum)|let test = basis basis|let left = colon basis test|poly ask = let|let let_ = left ask 00001/3|ask basis left",
    "ring 2 x|ideal J = (x)| let T=basis J#&|let\tU = power 0 T ",
    "ring 3 x|poly f = x|let T = test f 2/131070|let U = left f 4294967295/4294967295|let V = left f 8",
];

#[test]
fn named_results_and_faults(rt: HostRuntime) -> Result<(), Fail> {
    let alloc = rt.alloc();
    for (session, kind, line, column) in &FAULTS {
        fails(&rt, alloc, &bytes(alloc, session)?, (*kind, *line, *column))?;
    }
    for (last, kind, line, column) in &FOLLOWING {
        let session = format!(in alloc; "{NAMES}{last}")?;
        fails(
            &rt,
            alloc,
            &bytes(alloc, &session)?,
            (*kind, *line, *column),
        )?;
    }
    for session in &ACCEPTED {
        let _script = reads(&rt, alloc, session)?;
    }
    Ok(())
}

#[test]
fn so_many_names(rt: HostRuntime) -> Result<(), Fail> {
    let alloc = rt.alloc();
    let mut session = Vec::new(alloc);
    session.extend_from_slice(b"ring 2 x\nideal n0 = (x)\n")?;
    let mut last = 0;
    for i in 1..4096 {
        session.extend_from_slice(format!(in alloc; "let n{i} = sum n{last} n0\n")?.as_bytes())?;
        last = i;
    }
    let script = read_script(alloc, &session);
    assert!(rt; script.is_ok_and(|script| script.env.values.len() == 4096));
    let all = session.len();
    session.extend_from_slice(b"let n4096")?;
    fails(&rt, alloc, &session, (Many, 4098, 5))?;
    session.truncate(all);
    session.extend_from_slice(b"let n4095 = basis n0")?;
    fails(&rt, alloc, &session, (Taken, 4098, 5))?;
    session.truncate(all);
    session.extend_from_slice(b"poly n4096")?;
    fails(&rt, alloc, &session, (Many, 4098, 6))?;
    session.truncate(all);
    session.extend_from_slice(b"let 1")?;
    fails(&rt, alloc, &session, (Syntax, 4098, 5))?;
    Ok(())
}

/// The name at a place stands for the answer of a question, with this turn budget.
fn named<'s>(
    rt: &impl Abort,
    values: &'s ValueList,
    place: usize,
    turns: u64,
) -> Result<&'s Question, Fail> {
    assert!(rt; place < values.len());
    if let (_, Value::Let { budget, question }) = values.get(place) {
        assert_eq!(rt; *budget, turns);
        Ok(question)
    } else {
        panic!(rt; "the answer of a question");
    }
}

#[test]
fn questions_and_budgets(rt: HostRuntime) -> Result<(), Fail> {
    let alloc = rt.alloc();
    let script = reads(
        &rt,
        alloc,
        "ring 3 x, y|ideal J = (x)|let T = power 2 J|budget 5|order lex|let U = meet T J|poly f = x|budget 9|let V = left f 6/8|ask basis U",
    )?;
    let values = &script.env.values;
    assert_eq!(rt; values.len(), 5);
    assert_eq!(rt; script.asked.len(), 1);
    let power = named(&rt, values, 1, 100000)?;
    assert!(rt; matches!(power, Question::Power { e: 2, j: 0 }));
    let meet = named(&rt, values, 2, 5)?;
    assert!(rt; matches!(meet, Question::Meet { j: 1, k: 0 }));
    if let Question::Left { f, t } = named(&rt, values, 4, 9)? {
        assert_eq!(rt; *f, 3);
        assert_eq!(rt; t.num(), 3);
        assert_eq!(rt; t.den(), 4);
    } else {
        panic!(rt; "a limit from the left");
    }
    let asked = script.asked.get(0);
    assert_eq!(rt; asked.number, 1);
    assert_eq!(rt; asked.budget, 9);
    assert!(rt; matches!(asked.question, Question::Basis { j: 2 }));
    Ok(())
}
