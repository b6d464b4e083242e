// Texts at the edges of every rule of the grammar: declarations, and texts that are none, with the place of the first token, or of
// the text's end, with which no declaration goes on.
use super::answers::{Case, check_reads, check_refused};
use std::test::Fail;

const DECLARATIONS: [&[u8]; 43] = [
    b"val x = 1",
    b"\tval\nx\r= 1 ",
    b"val x(*$*)=1",
    b"val x (*$a/b,c*) = y",
    b"val vals = iff",
    b"val x = a (*!val*)",
    b"fun f(a:int):int=a",
    b"fun f ( a (*$*) : int ref , b : int ) : int ref ref (*$//*) = a",
    b"fun f(a:int,b:int,c:int,d:int,e:int,g:int,h:int,i:int):int=1",
    b"fun f(a:int ref ref ref):int ref ref ref=a",
    b"fun f(f(*$*):int,f:int):int = f(f)",
    b"val x = if 1 < 2 then 3 else 4",
    b"val x = if 1<2then 3else 4",
    b"val x = if a + b * c < !d - ref e then if 1 < 2 then 3 else 4 else 5",
    b"val x = if 1 < 2 then 3 else if 4 < 5 then 6 else 7",
    b"val x = a + b - c * d div e mod f",
    b"val x = 1 + (2 - 3) * (4)",
    b"val x = ref a + !b * ref 1 - !2",
    b"val x = ref (ref (ref (ref a)))",
    b"val x = !(f(1))",
    b"val x = ref let val u = 1 in u end",
    b"val x = f(1)",
    b"val x = f (1, g(2), if 1 < 2 then 3 else 4, 5 + 6)",
    b"val x = f(1,2,3,4,5,6,7,8,9)",
    b"val x = f(1) + g(2) * h(3)",
    b"val x = (1)",
    b"val x = (if 1 < 2 then 3 else 4)",
    b"val x = (p := 1; 2)",
    b"val x = (p+q:=1*2;if 1 < 2 then 3 else 4)",
    b"val x = ((if 1 < 2 then p else q) := 2; 3)",
    b"val x = (!p := (q := 1; 2); (r := 3; 4))",
    b"val x = let val a = 1 in a end",
    b"val x = let val a(*$*) = 1 val b = a in b end",
    b"val x = let val a = if 1 < 2 then 3 else 4 val b = 2 in if b < a then a else b end",
    b"val x = 1 + let val a = 1 in a end * 2",
    b"val x = let val a=1in a end",
    b"val x = 1(*!a*)(*!b*)",
    b"val x = a (*!a*) (*!a*) (*!a*) (*!a*)",
    b"val x = (1)(*!a*)",
    b"val x = (p := 1; 2)(*!a*)",
    b"val x = let val a = 1 in a end(*!a*)",
    b"val x = !a (*!b*) + ref (1) (*!c*)",
    b"val x = (f(1)) (*!a*) + f(1 (*!a*))",
];

// No token, or not the first one.
const ENDS: [Case; 9] = [
    (b"", 3, 0),
    (b"   ", 3, 3),
    (b" \t\r\n", 3, 4),
    (b"x = 1", 3, 0),
    (b"(*$*) val x = 1", 3, 0),
    (b"if 1 < 2 then 3 else 4", 3, 0),
    (b" let val x = 1 in x end", 3, 1),
    (b"val x = 1 val y = 2", 3, 10),
    (b"fun f(a:int):int=1 fun g(a:int):int=2", 3, 19),
];

const VALS: [Case; 16] = [
    (b"val", 3, 3),
    (b"val ", 3, 4),
    (b"val x", 3, 5),
    (b"val x =", 3, 7),
    (b"val x =  ", 3, 9),
    (b"val 1 = 2", 3, 4),
    (b"val val = 1", 3, 4),
    (b"val (*$*) x = 1", 3, 4),
    (b"val x 1", 3, 6),
    (b"val x : int = 1", 3, 6),
    (b"val x := 1", 3, 6),
    (b"val x(a:int):int = 1", 3, 5),
    (b"val x (*!a*) = 1", 3, 6),
    (b"val x (*$*) (*$*) = 1", 3, 12),
    (b"val x = = 1", 3, 8),
    (b"val x = 1 = 2", 3, 10),
];

const FUNS: [Case; 32] = [
    (b"fun", 3, 3),
    (b"fun 1(a:int):int=1", 3, 4),
    (b"fun f", 3, 5),
    (b"fun f = 1", 3, 6),
    (b"fun f (*$*) (a:int):int=1", 3, 6),
    (b"fun f(", 3, 6),
    (b"fun f():int=1", 3, 6),
    (b"fun f(1:int):int=1", 3, 6),
    (b"fun f(a):int=1", 3, 7),
    (b"fun f(a,b:int):int=1", 3, 7),
    (b"fun f(a:=int):int=1", 3, 7),
    (b"fun f(a:):int=1", 3, 8),
    (b"fun f(a:b):int=1", 3, 8),
    (b"fun f(a:ref):int=1", 3, 8),
    (b"fun f(a (*!b*):int):int=1", 3, 8),
    (b"fun f(a (*$*) (*$*):int):int=1", 3, 14),
    (b"fun f(a:int (*$*)):int=1", 3, 12),
    (b"fun f(a:int,):int=1", 3, 12),
    (b"fun f(a:int b:int):int=1", 3, 12),
    (
        b"fun f(a:int,b:int,c:int,d:int,e:int,g:int,h:int,i:int,j:int):int=1",
        3,
        53,
    ),
    (b"fun f(a:int ref ref ref ref):int=1", 3, 24),
    (b"fun f(a:int):int ref ref ref ref=1", 3, 29),
    (b"fun f(a:int)=1", 3, 12),
    (b"fun f(a:int) int=1", 3, 13),
    (b"fun f(a:int):=1", 3, 12),
    (b"fun f(a:int):int", 3, 16),
    (b"fun f(a:int):int 1", 3, 17),
    (b"fun f(a:int):int (*!a*)=1", 3, 17),
    (b"fun f(a:int):int (*$*) (*$*)=1", 3, 23),
    (b"fun f(a:int):int (*$*) ref=1", 3, 23),
    (b"fun f(a:int):int=", 3, 17),
    (b"fun f(a:int):int=1 in", 3, 19),
];

const IFS: [Case; 15] = [
    (b"val x = if", 3, 10),
    (b"val x = if 1", 3, 12),
    (b"val x = if 1 then 2 else 3", 3, 13),
    (b"val x = if 1 < 2 3", 3, 17),
    (b"val x = if 1 < 2 else 3", 3, 17),
    (b"val x = if 1 < 2 < 3 then 4 else 5", 3, 17),
    (b"val x = if 1 < 2 then", 3, 21),
    (b"val x = if 1 < 2 then 3", 3, 23),
    (b"val x = if 1 < 2 then 3 4", 3, 24),
    (b"val x = if 1 < 2 then 3 else", 3, 28),
    (b"val x = if 1 < 2 then 3 else 4 else 5", 3, 31),
    (
        b"val x = if if 1 < 2 then 3 else 4 < 5 then 6 else 7",
        3,
        11,
    ),
    (
        b"val x = if 1 < if 1 < 2 then 3 else 4 then 5 else 6",
        3,
        15,
    ),
    (b"val x = (if 1 < 2 then 3)", 3, 24),
    (b"val x = (if 1 < 2 then 3 else 4 := 5; 6)", 3, 32),
];

const SUMS: [Case; 9] = [
    (b"val x = + 1", 3, 8),
    (b"val x = - 1", 3, 8),
    (b"val x = 1 +", 3, 11),
    (b"val x = 1 - - 2", 3, 12),
    (b"val x = 1 * ", 3, 12),
    (b"val x = 1 div mod 2", 3, 14),
    (b"val x = div 2", 3, 8),
    (b"val x = 1 < 2", 3, 10),
    (b"val x = 1 + if 1 < 2 then 3 else 4", 3, 12),
];

const APPS: [Case; 18] = [
    (b"val x = !", 3, 9),
    (b"val x = ! ! p", 3, 10),
    (b"val x = ! ref a", 3, 10),
    (b"val x = !f(1)", 3, 10),
    (b"val x = ref", 3, 11),
    (b"val x = ref ref a", 3, 12),
    (b"val x = ref !a", 3, 12),
    (b"val x = ref f(1)", 3, 13),
    (b"val x = ref if 1 < 2 then 3 else 4", 3, 12),
    (b"val x = f()", 3, 10),
    (b"val x = f(", 3, 10),
    (b"val x = f(1", 3, 11),
    (b"val x = f(1,)", 3, 12),
    (b"val x = f(1;2)", 3, 11),
    (b"val x = f(1 := 2; 3)", 3, 12),
    (b"val x = f(1)(2)", 3, 12),
    (b"val x = f(1) (*!a*)", 3, 13),
    (b"val x = 2(1)", 3, 9),
];

const ATOMS: [Case; 25] = [
    (b"val x = int", 3, 8),
    (b"val x = (*!a*) 1", 3, 8),
    (b"val x = (*$*)", 3, 8),
    (b"val x = 1 (*$*)", 3, 10),
    (b"val x = 1 (*!a*) 2", 3, 17),
    (b"val x = 1 + 2 (*!a*) (3)", 3, 21),
    (b"val x = 1 2", 3, 10),
    (b"val x = a b", 3, 10),
    (b"val x = 1x", 3, 9),
    (b"val x = (f)(1)", 3, 11),
    (b"val x = ()", 3, 9),
    (b"val x = (", 3, 9),
    (b"val x = (1", 3, 10),
    (b"val x = 1)", 3, 9),
    (b"val x = (1))", 3, 11),
    (b"val x = (1,2)", 3, 10),
    (b"val x = (1; 2)", 3, 10),
    (b"val x = 1;", 3, 9),
    (b"val x = 1 := 2", 3, 10),
    (b"val x = (1 := 2)", 3, 15),
    (b"val x = (1 := 2;)", 3, 16),
    (b"val x = (1 := 2 := 3; 4)", 3, 16),
    (b"val x = (1 := 2; 3 := 4; 5)", 3, 19),
    (b"val x = (1 := if 1 < 2 then 3 else 4; 5)", 3, 14),
    (b"val x = (ref a := 1; 2", 3, 22),
];

const LETS: [Case; 16] = [
    (b"val x = let", 3, 11),
    (b"val x = let in 1 end", 3, 12),
    (b"val x = let fun f(a:int):int = a in 1 end", 3, 12),
    (b"val x = let val", 3, 15),
    (b"val x = let val u 1", 3, 18),
    (b"val x = let val u (*!a*) = 1 in u end", 3, 18),
    (b"val x = let val u (*$*) (*$*) = 1 in u end", 3, 24),
    (b"val x = let val u = 1", 3, 21),
    (b"val x = let val u = 1, val v = 2 in u end", 3, 21),
    (b"val x = let val u = 1 u end", 3, 22),
    (b"val x = let val u = 1 in", 3, 24),
    (b"val x = let val u = 1 in end", 3, 25),
    (b"val x = let val u = 1 in u", 3, 26),
    (b"val x = let val u = 1 in u; v end", 3, 26),
    (b"val x = let val u = 1 in u v end", 3, 27),
    (b"val x = let val u = 1 in u end end", 3, 31),
];

// Bytes that are no token are told first, wherever they stand.
const NO_TOKENS: [Case; 4] = [
    (b"val val $", 2, 8),
    (b"val x = !!p", 2, 8),
    (b"val x = (*3)", 2, 8),
    (b") val x = 1234567890", 2, 10),
];

#[test]
fn declarations_are_read(rt: HostRuntime) -> Result<(), Fail> {
    check_reads(&rt, rt.alloc(), &DECLARATIONS)
}

#[test]
fn no_other_text_is_a_declaration(rt: HostRuntime) -> Result<(), Fail> {
    check_refused(&rt, rt.alloc(), &ENDS)?;
    check_refused(&rt, rt.alloc(), &VALS)?;
    check_refused(&rt, rt.alloc(), &FUNS)?;
    check_refused(&rt, rt.alloc(), &IFS)?;
    check_refused(&rt, rt.alloc(), &SUMS)?;
    check_refused(&rt, rt.alloc(), &APPS)?;
    check_refused(&rt, rt.alloc(), &ATOMS)?;
    check_refused(&rt, rt.alloc(), &LETS)?;
    check_refused(&rt, rt.alloc(), &NO_TOKENS)
}
