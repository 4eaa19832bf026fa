//! Lexers behind the last token of a text.

use agxx_base::{Mode, Place, Refusal};
use cxx_lex::{LexStep, Lexer};
use std::test::Fail;

#[test]
fn a_lexer_stays_where_it_ends(rt: HostRuntime) -> Result<(), Fail> {
    let mut lexer = Lexer::new(b"a ", 2, Mode::Source);
    assert!(rt; matches!(lexer.next(), LexStep::Token(_)));
    for _ in 0..3 {
        assert!(rt;
            matches!(
                lexer.next(),
                LexStep::End(Place {
                    file: 2,
                    line: 1,
                    column: 3
                })
            )
        );
    }
    Ok(())
}

#[test]
fn a_lexer_stays_where_it_refuses(rt: HostRuntime) -> Result<(), Fail> {
    let mut lexer = Lexer::new(b"a\n $", 2, Mode::Source);
    assert!(rt; matches!(lexer.next(), LexStep::Token(_)));
    for _ in 0..3 {
        assert!(rt;
            matches!(
                lexer.next(),
                LexStep::Refused(Refusal {
                    place: Place {
                        file: 2,
                        line: 2,
                        column: 2
                    },
                    ..
                })
            )
        );
    }
    Ok(())
}
