//! The tokens of a text that are still to be read.

ghost use Rattle.std.specs.Prelude.{◌≡◌, ◌≤◌, [], ◌∷◌, length, is_some, MatchOption};
ghost use Rattle.ir_lex.specs.Cut.{tokens_of, is_whole};
ghost use Rattle.ir_grammar.specs.Words.{first_is, second_is, behind_comma, any_left, is_word, is_any_word, is_sign, is_mark, is_local, is_label};
ghost use Rattle.ir_grammar.specs.Types as types;
ghost use Rattle.ir_grammar.specs.Past as past;
ghost use Rattle.ir_grammar.specs.Notes as notes;
ghost use Rattle.ir_grammar.specs.Instructions as instructions;
ghost use Rattle.ir_read.specs.Items.{token_of};
ghost use Rattle.ir_read.specs.Ahead.{behind, tokens_behind, whole_behind};

use crate::instr::mark_meaning;
use crate::item::{Item, item_of};
use crate::note::head_meaning;
use crate::past::past_meaning;
use crate::table::{effect_of, type_of, type_word};
use ir_grammar::{Marks, Place};
use ir_lex::{Tokens, cut_is_spelled, tokens_are_cut};
use ir_tree::Ty;
use std::marker::Model;

/// The next token of a text and its place; none at the end of the text, or where no token is spelled.
#[derive(Clone, Copy)]
struct Peeked<'a> {
    item: Option<Item<'a>>,
    at: usize,
    /// No token is spelled at this place.
    broken: bool,
}

fn look_ahead<'a>(tokens: &mut Tokens<'a>) -> Peeked<'a>
    ensures ahead { tokens_behind result.item tokens.new ≡ tokens_of (behind tokens.old) }
    ensures whole { whole_behind result.item result.broken tokens.new ≡ is_whole (behind tokens.old) }
{
    tokens_are_cut();
    cut_is_spelled();
    match tokens.next() {
        Ok(Some(token)) => Peeked {
            item: Some(item_of(&token)),
            at: token.start,
            broken: false,
        },
        Ok(None) => Peeked {
            item: None,
            at: usize::MAX,
            broken: false,
        },
        Err(error) => Peeked {
            item: None,
            at: error.at,
            broken: true,
        },
    }
}

/// Goes over the tokens of a text, the next two of which can be looked at. Contracts see the tokens that are left, up to
/// the end or to a place where none is spelled, and whether they go up to the end.
#[derive(Drop)]
pub(crate) struct Cursor<'a> {
    tokens: Tokens<'a>,
    next: Peeked<'a>,
    second: Peeked<'a>,
    /// The place of the last token that was asked for.
    at: usize,
    /// No more tokens than this are left.
    most: usize,
}

impl<'a> Model for Cursor<'a> {
    ghost use Rattle.std.specs.Prelude.{◌≤◌, length};
    ghost use Rattle.ir_read.specs.Ahead.{Ahead, tokens_ahead, whole_ahead, tokens_behind, whole_behind};

    ghost Value = { Ahead };

    ghost view = { λ c. record {
      tokens = tokens_ahead c.next.item (tokens_behind c.second.item c.tokens);
      whole = whole_ahead c.next.item c.next.broken (whole_behind c.second.item c.second.broken c.tokens);
    } };

    ghost invariant = { λ c. length (tokens_ahead c.next.item (tokens_behind c.second.item c.tokens)) ≤ c.most };
}

impl<'a> Cursor<'a> {
    pub(crate) fn new(text: &'a [u8]) -> Cursor<'a>
        ensures tokens { result.tokens ≡ tokens_of text.now }
        ensures whole { result.whole ≡ is_whole text.now }
    {
        tokens_are_cut();
        let mut tokens = Tokens::new(text);
        let next = look_ahead(&mut tokens);
        let second = look_ahead(&mut tokens);
        Cursor {
            tokens,
            next,
            second,
            at: 0,
            most: text.len(),
        }
    }

    /// Stands where this cursor stands, and goes on by itself.
    pub(crate) fn fork(&self) -> Cursor<'a>
        ensures { result ≡ self.now }
    {
        Cursor {
            tokens: self.tokens.fork(),
            next: self.next,
            second: self.second,
            at: self.at,
            most: self.most,
        }
    }

    /// Takes the next token.
    pub(crate) fn next(&mut self) -> Option<Item<'a>>
        ensures tokens { MatchOption result (self.old.tokens ≡ []) (λ item. self.old.tokens ≡ token_of item ∷ self.new.tokens) }
        ensures whole { self.new.whole ≡ self.old.whole }
    {
        let item = self.next.item;
        self.at = self.next.at;
        if item.is_some() {
            self.next = self.second;
            self.second = look_ahead(&mut self.tokens);
        }
        item
    }

    /// The place of the next token. At the end of the text it is a greater number than any place.
    pub(crate) fn next_at(&self) -> usize {
        self.next.at
    }

    /// The place of the last token that was asked for. At the end of the text it is a greater number than any place.
    pub(crate) fn at(&self) -> usize {
        self.at
    }

    /// No more tokens than this are left.
    pub(crate) fn left(&self) -> usize
        ensures { length self.now.tokens ≤ result }
    {
        self.most
    }

    /// The tokens go up to the end of the text.
    pub(crate) fn is_whole(&self) -> bool
        ensures { self.now.tokens ≡ [] → result ≡ self.now.whole }
    {
        !self.next.broken
    }

    pub(crate) fn any_left(&self) -> bool
        ensures { result ≡ any_left self.now.tokens }
    {
        self.next.item.is_some()
    }

    pub(crate) fn starts_word(&self, word: &[u8]) -> bool
        ensures { result ≡ first_is (is_word word.now) self.now.tokens }
    {
        match self.next.item {
            Some(Item::Word(text)) => text == word,
            _ => false,
        }
    }

    pub(crate) fn starts_any_word(&self) -> bool
        ensures { result ≡ first_is is_any_word self.now.tokens }
    {
        matches!(self.next.item, Some(Item::Word(_)))
    }

    pub(crate) fn starts_sign(&self, byte: u8) -> bool
        ensures { result ≡ first_is (is_sign byte) self.now.tokens }
    {
        match self.next.item {
            Some(Item::Sign(sign)) => sign == byte,
            _ => false,
        }
    }

    pub(crate) fn starts_mark(&self) -> bool
        ensures { result ≡ first_is is_mark self.now.tokens }
    {
        matches!(self.next.item, Some(Item::Mark))
    }

    pub(crate) fn starts_local(&self) -> bool
        ensures { result ≡ first_is is_local self.now.tokens }
    {
        matches!(self.next.item, Some(Item::Local(_)))
    }

    pub(crate) fn starts_label(&self) -> bool
        ensures { result ≡ first_is is_label self.now.tokens }
    {
        matches!(self.next.item, Some(Item::Label(_)))
    }

    pub(crate) fn starts_past(&self, place: Place) -> bool
        ensures { result ≡ first_is (λ t. is_some (past.past_meaning place t)) self.now.tokens }
    {
        match self.next.item {
            Some(item) => past_meaning(place, item).is_some(),
            None => false,
        }
    }

    /// An attribute or attachment of a definition begins here.
    #[tactic(auto, unfolding(ir_grammar::specs::Notes::head_begins))]
    pub(crate) fn starts_head(&self) -> bool
        ensures { result ≡ notes.head_begins self.now.tokens }
    {
        match self.next.item {
            Some(item) => head_meaning(item).is_some(),
            None => false,
        }
    }

    /// One of several words, of which one is marked, stands here.
    pub(crate) fn starts_marked(&self, which: Marks) -> bool
        ensures { result ≡ first_is (λ t. is_some (instructions.mark_meaning which t)) self.now.tokens }
    {
        match self.next.item {
            Some(item) => mark_meaning(which, item).is_some(),
            None => false,
        }
    }

    /// An instruction begins here.
    pub(crate) fn starts_instr(&self) -> bool
        ensures { result ≡ first_is instructions.starts_instr self.now.tokens }
    {
        match self.next.item {
            Some(Item::Local(_)) => true,
            Some(Item::Word(text)) => effect_of(text).is_some(),
            _ => false,
        }
    }

    /// This very type stands here.
    pub(crate) fn starts_type(&self, ty: Ty) -> bool
        ensures { result ≡ first_is (types.is_type ty) self.now.tokens }
    {
        match self.next.item {
            Some(Item::Word(text)) => text == type_word(ty),
            _ => false,
        }
    }

    /// A comma stands here, and behind it the sign.
    #[tactic(auto, unfolding(ir_grammar::specs::Words::behind_comma))]
    pub(crate) fn starts_comma_sign(&self, byte: u8) -> bool
        ensures { result ≡ behind_comma (is_sign byte) self.now.tokens }
    {
        self.starts_sign(b',') && self.second_is_sign(byte)
    }

    /// A comma stands here, and behind it a type.
    #[tactic(auto, unfolding(ir_grammar::specs::Words::behind_comma))]
    pub(crate) fn starts_comma_type(&self) -> bool
        ensures { result ≡ behind_comma instructions.is_type_word self.now.tokens }
    {
        self.starts_sign(b',') && self.second_is_type()
    }

    fn second_is_type(&self) -> bool
        ensures { result ≡ second_is instructions.is_type_word self.now.tokens }
    {
        match self.next.item {
            Some(_) => match self.second.item {
                Some(Item::Word(text)) => type_of(text).is_some(),
                _ => false,
            },
            None => false,
        }
    }

    pub(crate) fn second_is_sign(&self, byte: u8) -> bool
        ensures { result ≡ second_is (is_sign byte) self.now.tokens }
    {
        match self.next.item {
            Some(_) => match self.second.item {
                Some(Item::Sign(sign)) => sign == byte,
                _ => false,
            },
            None => false,
        }
    }
}
