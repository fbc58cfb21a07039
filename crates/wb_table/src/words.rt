//! The words of a text.

ghost use Rattle.std.specs.Prelude.{◌≡◌, ◌≢◌, [], ◌∷◌, List, ℕ, OnSome, IfNone};
ghost use Rattle.std.specs.Iterator.{YieldsFirstRef, item_count};
ghost use Rattle.wb_table.specs.Words.{words_of};

/// Goes over the words of a text, which stand between spaces: as `split_whitespace`, but for the space alone.
#[derive(Drop)]
pub struct SplitSpaces<'a>(pub &'a str);

impl<'a> Iterator for SplitSpaces<'a> {
    type Item = &'a str;

    ghost next_gives = { YieldsFirstRef (λ words. words_of words.0.now) };

    ghost remaining = { item_count (λ words. words_of words.0.now) };

    fn next(&mut self) -> Option<&'a str> {
        while let Some((word, rest)) = self.0.split_once(' ') {
            self.0 = rest;
            if !word.is_empty() {
                return Some(word);
            }
        }
        let last = self.0;
        self.0 = "";
        if last.is_empty() { None } else { Some(last) }
    }
}

impl<'a> SplitSpaces<'a> {
    /// Takes the next word, which has to be this one.
    pub fn expect(&mut self, word: &str) -> Option<()>
        ensures taken { OnSome result (words_of self.old.0.now ≡ word.now ∷ words_of self.new.0.now) }
        ensures other { IfNone result ((rest : List (List ℕ)) → words_of self.old.0.now ≢ word.now ∷ rest) }
    {
        if self.next()? == word { Some(()) } else { None }
    }

    /// Takes the end: no word has to be left.
    pub fn expect_end(&mut self) -> Option<()>
        ensures end { OnSome result (words_of self.old.0.now ≡ []) }
        ensures more { IfNone result (words_of self.old.0.now ≢ []) }
    {
        if self.next().is_none() {
            Some(())
        } else {
            None
        }
    }
}
