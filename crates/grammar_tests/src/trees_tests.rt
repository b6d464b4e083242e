// The trees of two declarations: which parts belong together, and their places.
use grammar::read::read;
use std::alloc::Global;
use std::process::Abort;
use std::test::Fail;
use syntax::tree::{Dec, Exp, Lexeme, Operator, Params};

fn check_lexeme(rt: &impl Abort, found: &Lexeme, place: usize, bytes: &[u8]) -> Result<(), Fail> {
    assert_eq!(rt; found.place, place);
    assert_eq!(rt; found.bytes, bytes);
    Ok(())
}

fn check_mark(
    rt: &impl Abort,
    found: &Option<Lexeme>,
    place: usize,
    bytes: &[u8],
) -> Result<(), Fail> {
    match found {
        Some(mark) => check_lexeme(rt, mark, place, bytes),
        None => Err(Fail::new("no mark")),
    }
}

fn check_variable(rt: &impl Abort, e: &Exp, place: usize, bytes: &[u8]) -> Result<(), Fail> {
    match e {
        Exp::Variable(name) => check_lexeme(rt, name, place, bytes),
        _ => Err(Fail::new("no variable")),
    }
}

// `b * c`
fn check_product(rt: &impl Abort, e: &Exp) -> Result<(), Fail> {
    match e {
        Exp::Arith(b, place, Operator::Times, c) => {
            check_variable(rt, b, 18, b"b")?;
            assert_eq!(rt; *place, 20);
            check_variable(rt, c, 22, b"c")
        }
        _ => Err(Fail::new("no product")),
    }
}

// `a + b * c`
fn check_sum(rt: &impl Abort, e: &Exp) -> Result<(), Fail> {
    match e {
        Exp::Arith(a, place, Operator::Plus, product) => {
            check_variable(rt, a, 14, b"a")?;
            assert_eq!(rt; *place, 16);
            check_product(rt, product)
        }
        _ => Err(Fail::new("no sum")),
    }
}

// `d (*!m*)`
fn check_bounded(rt: &impl Abort, e: &Exp) -> Result<(), Fail> {
    match e {
        Exp::Bounded(d, mark) => {
            check_variable(rt, d, 27, b"d")?;
            check_lexeme(rt, mark, 29, b"m")
        }
        _ => Err(Fail::new("no bound")),
    }
}

// `!d (*!m*)`
fn check_content(rt: &impl Abort, e: &Exp) -> Result<(), Fail> {
    match e {
        Exp::Read(place, bounded) => {
            assert_eq!(rt; *place, 26);
            check_bounded(rt, bounded)
        }
        _ => Err(Fail::new("no content")),
    }
}

// `a + b * c - !d (*!m*)`
fn check_difference(rt: &impl Abort, e: &Exp) -> Result<(), Fail> {
    match e {
        Exp::Arith(sum, place, Operator::Minus, content) => {
            check_sum(rt, sum)?;
            assert_eq!(rt; *place, 24);
            check_content(rt, content)
        }
        _ => Err(Fail::new("no difference")),
    }
}

fn check_value(rt: &impl Abort, dec: &Dec) -> Result<(), Fail> {
    match dec {
        Dec::Val(name, mark, e) => {
            check_lexeme(rt, name, 4, b"x")?;
            check_mark(rt, mark, 6, b"")?;
            check_difference(rt, e)
        }
        Dec::Fun(..) => Err(Fail::new("a function")),
    }
}

// `a:int ref ref`, alone
fn check_parameter(rt: &impl Abort, params: &Params) -> Result<(), Fail> {
    match params {
        Params::Sole(a) => {
            check_lexeme(rt, &a.name, 6, b"a")?;
            assert_eq!(rt; a.mark.is_some(), false);
            assert_eq!(rt; (a.ty.depth, a.ty.last), (2, 16));
            Ok(())
        }
        Params::And(..) => Err(Fail::new("two parameters")),
    }
}

fn check_function(rt: &impl Abort, dec: &Dec) -> Result<(), Fail> {
    match dec {
        Dec::Fun(name, params, ty, mark, body) => {
            check_lexeme(rt, name, 4, b"f")?;
            check_parameter(rt, params)?;
            assert_eq!(rt; (ty.depth, ty.last), (0, 21));
            check_mark(rt, mark, 25, b"m/n")?;
            check_variable(rt, body, 36, b"b")
        }
        Dec::Val(..) => Err(Fail::new("a value")),
    }
}

fn tree<'a>(heap: Global, text: &'a [u8]) -> Result<Dec<'a>, Fail> {
    Ok(read(heap, text)?)
}

#[test]
fn operators_group_and_bounds_belong_to_operands(rt: HostRuntime) -> Result<(), Fail> {
    check_value(
        &rt,
        &tree(rt.alloc(), b"val x (*$*) = a + b * c - !d (*!m*)")?,
    )
}

#[test]
fn a_function_has_its_parameter_type_mark_and_body(rt: HostRuntime) -> Result<(), Fail> {
    check_function(
        &rt,
        &tree(rt.alloc(), b"fun f(a:int ref ref):int (*$m/n*) = b")?,
    )
}
