//! Words and what they are read as, worked out by hand from the grammar.

use agxx_base::{NumKind, Place, Sign};
use cxx_expr::{Unread, Word, WordAt, read_expr};
use cxx_tree::{BinOp, Expr, Number, Placed};
use std::test::Fail;

fn at(column: u32, item: Word<'_>) -> WordAt<'_> {
    Placed {
        at: Place {
            file: 0,
            line: 1,
            column,
        },
        item,
    }
}

fn number(column: u32) -> WordAt<'static> {
    at(
        column,
        Word::Number(Number {
            bits: 1,
            kind: NumKind::I32,
        }),
    )
}

fn sign(column: u32, sign: Sign) -> WordAt<'static> {
    at(column, Word::Sign(sign))
}

/// `1 - 1`
#[test]
fn an_expression_is_all_the_words(rt: HostRuntime) -> Result<(), Fail> {
    let words = [number(1), sign(3, Sign::Minus), number(5)];
    let read = read_expr(rt.alloc(), words.as_slice(), 0).ok();
    let Some(Expr::Binary(_, op, _, second)) = read else {
        return Err("no binary operator")?;
    };
    assert_eq!(rt; op.at.column, 3);
    assert_eq!(rt; op.item, BinOp::Subtract);
    assert_eq!(rt; second.get().node().at.column, 5);
    Ok(())
}

/// In `1 1` the second number can't stand there.
#[test]
fn the_first_wrong_word_is_told(rt: HostRuntime) -> Result<(), Fail> {
    let words = [number(1), number(3)];
    let told = read_expr(rt.alloc(), words.as_slice(), 9).err();
    assert_eq!(rt; told, Some(Unread::Syntax(1)));
    Ok(())
}

/// `(1)` needs one parenthesis.
#[test]
fn the_depth_is_kept(rt: HostRuntime) -> Result<(), Fail> {
    let words = [
        sign(1, Sign::OpenParen),
        number(2),
        sign(3, Sign::CloseParen),
    ];
    let told = read_expr(rt.alloc(), words.as_slice(), 0).err();
    assert_eq!(rt; told, Some(Unread::Deep(0)));
    assert!(rt; read_expr(rt.alloc(), words.as_slice(), 1).is_ok());
    Ok(())
}
