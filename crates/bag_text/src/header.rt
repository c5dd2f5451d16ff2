//! What comes next in a transfer form: its end, or an entry.

ghost use Rattle.std.specs.Prelude.{◌≤◌};
ghost use Rattle.bag_text.specs.Paths.{max_path};
ghost use Rattle.bag_text.specs.TransferForm.{max_content};

/// Why a piece isn't read: the text ends in it, or has another byte.
#[derive(Clone, Copy, Debug, PartialEq, Eq)]
pub enum Flaw {
    Short,
    Bad,
}

/// The header of an entry, and what follows it.
#[derive(Clone, Copy)]
pub struct Header<'a> {
    pub path_len: usize,
    pub content_len: usize,
    pub rest: &'a [u8],
    ghost path_fits: { path_len ≤ max_path },
    ghost content_fits: { content_len ≤ max_content },
}

/// The end of a form, or the header of its next entry.
#[derive(Clone, Copy)]
pub enum EndOrEntry<'a> {
    End(&'a [u8]),
    Entry(Header<'a>),
}
