//! The tokens of a statement's text.
//!
//! [`next_token`] gives the next token from a place on, and is asked again from that token's end.
//! What a token stands for is told from its bytes: [`number_of`] a number's value, [`text_of`] a
//! quoted text's, and [`name_of`] a name in capitals. [`put_quoted`] writes a quoted text. `specs/`
//! has the definitions: `next_in` says which token comes or what is refused, and `IsToken` what the
//! bytes of each kind are. A call without `alloc` takes no memory, but for what it writes.
#![tactic(auto)]

mod error;
mod laws;
mod meaning;
mod next;
mod quoted;
mod quoting;
mod runs;
mod token;

pub use error::LexError;
pub use laws::tokens_stand;
pub use meaning::{name_of, number_of, text_of};
pub use next::next_token;
pub use quoting::put_quoted;
pub use token::{Token, TokenKind};
