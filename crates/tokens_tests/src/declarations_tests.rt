use super::shown::{Case, check_cases};
use std::test::Fail;

// Declarations with bytes in them that are no token.
const SPOILED: [Case; 25] = [
    (b"val x = !!p", "refused 2 8"),
    (b"val x = 1234567890", "refused 2 8"),
    (b"val inn # 0 mod 40", "refused 2 8"),
    (b"val abcdefghijklmnoq (*", "refused 2 21"),
    (b"val abcdefghijklmnopq = 1", "refused 2 4"),
    (b"val g=field((lane:=007;1^)", "refused 2 24"),
    (b" val  q =\t(! r\t)  (*'!loop*)\n", "refused 2 18"),
    (
        b"\t  val inn\n=\nfield\n\x0b\r\n(\r\ncap\n)",
        "refused 2 19",
    ),
    (b"val lane=clock(check(40,cap=!))", "refused 2 27"),
    (b"\x85 refs = check ( 123456789 , x )", "refused 2 0"),
    (b"fun h(green:\xa7nt ref ref):int=field(1)", "refused 2 12"),
    (
        b"val iff = if a'b_9 < c then 40 else \x00 0",
        "refused 2 36",
    ),
    (
        b"\nval green \t = \t g \t (\xd3etector\r\n( Stage\n",
        "refused 2 22",
    ),
    (
        b"fun h ( s (*$clock,form,checked//clock/form,cloc",
        "refused 2 10",
    ),
    (
        b"\t  fun\ng \t (vals: int )  : int\r\n=\tdetector \x0c(vals )",
        "refused 2 43",
    ),
    (
        b"val b = ( ( ref c ) (*!enter\xd2d*) := c ; ( ref c ) )",
        "refused 2 20",
    ),
    (
        b"\nval abcdefghijklmnop\naaaaaaaaaaaaaaaaa\r\n=\nv(*!loop*)\r\n  ",
        "refused 2 22",
    ),
    (
        b". \t h\n=\r\nif \t 123456789 <\r\ncap\nthen \t refs\telse!\n(  ref  r)\r\n  ",
        "refused 2 0",
    ),
    (
        b"\t  val\tiff\t= \t ( if  5\t<a  then ref \t a\nelse\t! \xcd\tref Stage\r\n)\t) ",
        "refused 2 47",
    ),
    (
        b"val cap = if cap < cap then ( ref z ) (*!entered*) else ( ref\xfaz )",
        "refused 2 61",
    ),
    (
        b" fun x(\ta'b_9  :\tint  ref\n) \t :  int  (*$Checked*)  = \t \x85 123456789\r\n  ",
        "refused 2 56",
    ),
    (
        b"val s ($///*) = let val s (*$/form*) = ! z val Stage = ! s in ref z end",
        "refused 2 7",
    ),
    (
        b"\xffabcdefghijklmnoq(*$form,checked/loop,clock,entered/clock,form,entered*)=slot",
        "refused 2 0",
    ),
    (
        b"val q\r\n=\r\ndetector (\t( a \t ) -\n!\r\n( ref  Stage\t(*!loop*) )(*!form*)\r\n(*$a,*)(*!loop*)\n) ",
        "refused 2 69",
    ),
    (
        b"val\ny\r\n(*$*)\t= !\r\nrefs mod\nfield  (  g  (*!checked*)\t(*$a,*)\r\n(*!entered*)\r\n(*!form*)\n)\n",
        "refused 2 53",
    ),
];

#[test]
fn spoiled_declarations_are_refused(rt: HostRuntime) -> Result<(), Fail> {
    check_cases(&rt, rt.alloc(), &SPOILED)
}
