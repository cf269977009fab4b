//! From a line to its tokens.

ghost use Rattle.std.specs.Prelude.{◌≡◌, ◌≢◌, ◌<◌, ◌++◌, ◌∷◌, [], length, Err, All, IfOk, IfErr, OnOk, chars};
ghost use Rattle.cy_lexer.specs.Gaps.{LeavesGaps};
ghost use Rattle.cy_lexer.specs.Line.{longest_line};
ghost use Rattle.cy_lexer.specs.Tokens.{tokens_of};
ghost use Rattle.cy_lexer.specs.Spans.{IsSpanOf, AreSpansOf};

use crate::characters::split_first;
use crate::faults::LexFault;
use crate::line::LONGEST_LINE;
use crate::pieces::piece;
use crate::tokens::Token;
use std::alloc::Global;

// How many tokens there is room for from the first one on.
const SHORT_LINE: usize = 30;

/// The tokens of a line, or the first fault that reading it from the left meets. Fails with `LineTooLong` above 65,536
/// bytes, and may fail with `NoMemory` at any token, but not where there is none. Nothing but white space and comments
/// stands between the tokens.
pub fn lex(alloc: Global, line: &str) -> Result<Vec<Token>, LexFault>
    ensures tokens { IfOk result (λ tokens. tokens_of line.now ≡ Ok tokens.items) }
    ensures fault { IfErr result (λ fault. fault ≢ LexFault.NoMemory → tokens_of line.now ≡ Err fault) }
    ensures memory { IfErr result (λ fault. fault ≡ LexFault.NoMemory → tokens_of line.now ≢ Ok []) }
    ensures long { longest_line < length line.now → result ≡ Err LexFault.LineTooLong }
    ensures slices { IfOk result (λ tokens. All (IsSpanOf line.now) tokens.items) }
    ensures gaps { IfOk result (λ tokens. LeavesGaps 0 (chars line.now) tokens.items) }
    ensures spans { IfOk result (λ tokens. AreSpansOf line.now 0 tokens.items (length line.now)) }
{
    if line.len() > LONGEST_LINE {
        return Err(LexFault::LineTooLong);
    }
    let mut tokens = Vec::new(alloc);
    let mut rest = line;
    while let Some((first, after)) = split_first(rest) {
        let start = line.len() - rest.len();
        let (kind, left) = piece(line.len(), rest, first, after)?;
        if let Some(kind) = kind {
            let end = line.len() - left.len();
            push_token(&mut tokens, Token { kind, start, end })?;
        }
        rest = left;
    }
    Ok(tokens)
}

// Adds a token. With the first one comes room for those of a short line, so that a line without tokens takes no memory.
fn push_token(tokens: &mut Vec<Token>, token: Token) -> Result<(), LexFault>
    ensures ok { OnOk result (tokens.new.items ≡ tokens.old.items ++ token ∷ []) }
    ensures fault { IfErr result (λ fault. fault ≡ LexFault.NoMemory) }
{
    if tokens.is_empty() {
        tokens.reserve(SHORT_LINE)?;
    }
    tokens.push(token)?;
    Ok(())
}
