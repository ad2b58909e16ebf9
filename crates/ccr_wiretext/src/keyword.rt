//! The words that may begin a line.

ghost use Rattle.std.specs.Prelude.{◌≡◌};
ghost use Rattle.ccr_wiretext.specs.Keywords.{keyword, keyword_in_block};

use ccr_text::is_text;

/// A word that may begin a line, somewhere in a wiring text.
#[derive(Clone, Copy, PartialEq, Eq)]
pub enum Keyword {
    Budget,
    Queue,
    Port,
    Portset,
    Cause,
    Handler,
    Receive,
    Choice,
    Interleave,
    Combine,
    Poster,
    Post,
    Fail,
    Add,
    Remove,
    Await,
    Branch,
    Teardown,
    Exclusive,
    Concurrent,
    End,
    /// Any other word.
    Other,
}

/// The keyword of a line in a block that a word is.
fn keyword_in_block(word: &[u8]) -> Keyword
    ensures { result ≡ keyword_in_block word.now }
{
    if is_text(word, "post") {
        Keyword::Post
    } else if is_text(word, "fail") {
        Keyword::Fail
    } else if is_text(word, "add") {
        Keyword::Add
    } else if is_text(word, "remove") {
        Keyword::Remove
    } else if is_text(word, "await") {
        Keyword::Await
    } else if is_text(word, "branch") {
        Keyword::Branch
    } else if is_text(word, "teardown") {
        Keyword::Teardown
    } else if is_text(word, "exclusive") {
        Keyword::Exclusive
    } else if is_text(word, "concurrent") {
        Keyword::Concurrent
    } else if is_text(word, "end") {
        Keyword::End
    } else {
        Keyword::Other
    }
}

/// The keyword that a word is.
#[tactic(auto, unfolding(crate::specs::Keywords::keyword))]
pub fn keyword_of(word: &[u8]) -> Keyword
    ensures { result ≡ keyword word.now }
{
    if is_text(word, "budget") {
        Keyword::Budget
    } else if is_text(word, "queue") {
        Keyword::Queue
    } else if is_text(word, "port") {
        Keyword::Port
    } else if is_text(word, "portset") {
        Keyword::Portset
    } else if is_text(word, "cause") {
        Keyword::Cause
    } else if is_text(word, "handler") {
        Keyword::Handler
    } else if is_text(word, "receive") {
        Keyword::Receive
    } else if is_text(word, "choice") {
        Keyword::Choice
    } else if is_text(word, "interleave") {
        Keyword::Interleave
    } else if is_text(word, "combine") {
        Keyword::Combine
    } else if is_text(word, "poster") {
        Keyword::Poster
    } else {
        keyword_in_block(word)
    }
}
