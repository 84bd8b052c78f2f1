//! Laws about the lines that say words. Each function exists for its contract alone: a caller has
//! the law as a fact.

ghost use Rattle.mk_repair.specs.Laws.{EachWordStands, LinesFit, OnlyWordsStand};

/// Each word stands on a line: a target with its prerequisite, a phony target with `.PHONY`.
pub fn each_word_stands()
    ensures { EachWordStands }
{}

/// A line gives a target a prerequisite only by a word.
pub fn only_words_stand()
    ensures { OnlyWordsStand }
{}

/// No line has over 2,000 bytes of targets or of prerequisites, but for one name alone.
pub fn lines_fit()
    ensures { LinesFit }
{}
