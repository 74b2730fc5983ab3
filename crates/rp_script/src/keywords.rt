//! The first words of lines and requests.
ghost use Rattle.std.specs.Prelude.{◌≡◌};
ghost use Rattle.rp_script.specs.Keywords.{keyword_of, world_keyword_of, is_barred_in_race, request_word_of};

/// The first word of a line.
#[derive(Clone, Copy, PartialEq, Eq)]
pub enum Keyword {
    Cluster,
    Send,
    Admit,
    Again,
    Draw,
    Publish,
    Ask,
    Transfer,
    Flush,
    Apply,
    Cut,
    Remove,
    Restart,
    Tick,
    Deliver,
    Peek,
    Loss,
    Settle,
    End,
    Unknown,
}

/// The first word of a request.
#[derive(Clone, Copy, PartialEq, Eq)]
pub enum RequestWord {
    Put,
    Add,
    CPut,
    Del,
    Wipe,
    Move,
    Split,
    Unknown,
}

/// What the first word of a line says.
#[tactic(auto, unfolding(crate::specs::Keywords::keyword_of))]
pub fn keyword_of(word: &[u8]) -> Keyword
    ensures { result ≡ keyword_of word.now }
{
    if word == b"cluster".as_slice() {
        Keyword::Cluster
    } else if word == b"send".as_slice() {
        Keyword::Send
    } else if word == b"admit".as_slice() {
        Keyword::Admit
    } else if word == b"again".as_slice() {
        Keyword::Again
    } else if word == b"draw".as_slice() {
        Keyword::Draw
    } else if word == b"publish".as_slice() {
        Keyword::Publish
    } else if word == b"ask".as_slice() {
        Keyword::Ask
    } else if word == b"transfer".as_slice() {
        Keyword::Transfer
    } else if word == b"end".as_slice() {
        Keyword::End
    } else {
        world_keyword_of(word)
    }
}

/// The same for the lines of a replica or of the network.
#[tactic(auto, unfolding(crate::specs::Keywords::world_keyword_of))]
fn world_keyword_of(word: &[u8]) -> Keyword
    ensures { result ≡ world_keyword_of word.now }
{
    if word == b"flush".as_slice() {
        Keyword::Flush
    } else if word == b"apply".as_slice() {
        Keyword::Apply
    } else if word == b"cut".as_slice() {
        Keyword::Cut
    } else if word == b"remove".as_slice() {
        Keyword::Remove
    } else if word == b"restart".as_slice() {
        Keyword::Restart
    } else if word == b"tick".as_slice() {
        Keyword::Tick
    } else if word == b"deliver".as_slice() {
        Keyword::Deliver
    } else if word == b"peek".as_slice() {
        Keyword::Peek
    } else if word == b"loss".as_slice() {
        Keyword::Loss
    } else if word == b"settle".as_slice() {
        Keyword::Settle
    } else {
        Keyword::Unknown
    }
}

/// Whether the word is known and begins no line of a race.
pub fn is_barred_in_race(keyword: Keyword) -> bool
    ensures { result ≡ is_barred_in_race keyword }
{
    !matches!(
        keyword,
        Keyword::Cluster | Keyword::Send | Keyword::Transfer | Keyword::End | Keyword::Unknown
    )
}

/// The first word of a request.
#[tactic(auto, unfolding(crate::specs::Keywords::request_word_of))]
pub fn request_word_of(word: &[u8]) -> RequestWord
    ensures { result ≡ request_word_of word.now }
{
    if word == b"put".as_slice() {
        RequestWord::Put
    } else if word == b"add".as_slice() {
        RequestWord::Add
    } else if word == b"cput".as_slice() {
        RequestWord::CPut
    } else if word == b"del".as_slice() {
        RequestWord::Del
    } else if word == b"wipe".as_slice() {
        RequestWord::Wipe
    } else if word == b"move".as_slice() {
        RequestWord::Move
    } else if word == b"split".as_slice() {
        RequestWord::Split
    } else {
        RequestWord::Unknown
    }
}
