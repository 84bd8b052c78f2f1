//! Rows on the lines that words give.

use mk_repair::{Word, Words, lines_text};
use std::alloc::Global;
use std::process::Abort;
use std::test::Fail;
use tests_tables::{part, rows, unfolded};

/// Adds words, each written as `target prerequisite`, or as a target alone that is phony.
fn add_words(alloc: Global, words: &mut Words, table: &str) -> Result<(), Fail> {
    let text = unfolded(alloc, table)?;
    for word in text.as_str().split(", ") {
        match word.split_once(" ") {
            Some((target, prerequisite)) => words.insert(
                alloc,
                Word::Needs {
                    target,
                    prerequisite,
                },
            )?,
            None => words.insert(alloc, Word::Phony { target: word })?,
        };
    }
    Ok(())
}

/// Words, and their lines.
const LINES: &str = r"a.o h.h‖a.o: h.h¶
a.o h.h, a.o h.h‖a.o: h.h¶
a.o h.h, b.o h.h‖a.o b.o: h.h¶
a.o h.h, all, b.o h.h‖.PHONY: all¶a.o b.o: h.h¶
a.o x.h, b.o y.h, c.o x.h, b.o x.h, d.o y.h, d.o x.h‖a.o c.o: x.h¶b.o d.o: y.h x.h¶
a.o x.h, a.o y.h, b.o y.h, b.o x.h‖a.o: x.h y.h¶b.o: y.h x.h¶
a.o h.h, b.o g.h, a.o g.h‖a.o: h.h g.h¶b.o: g.h¶
t ×1000×x×, t ×999×y×‖t: ×1000×x× ×999×y×¶
t ×1000×x×, t ×1000×y×‖t: ×1000×x×¶t: ×1000×y×¶
t ×2000×x×, t y, t z‖t: ×2000×x×¶t: y z¶
t ×2001×x×, t y, t z‖t: ×2001×x×¶t: y z¶
t y, t ×2001×x×, t z‖t: y¶t: ×2001×x×¶t: z¶
×1000×x× h, ×999×y× h‖×1000×x× ×999×y×: h¶
×1000×x× h, ×1000×y× h‖×1000×x×: h¶×1000×y×: h¶
s ×2000×x×, s y, ×2000×t× ×2000×x×, ×2000×t× y
    ‖s: ×2000×x×¶s: y¶×2000×t×: ×2000×x×¶×2000×t×: y¶
×1000×x×, ×1000×y×, z‖.PHONY: ×1000×x×¶.PHONY: ×1000×y× z¶";

#[test]
fn writes_lines_of_words(rt: HostRuntime) -> Result<(), Fail> {
    let alloc = rt.alloc();
    for row in &rows(alloc, LINES)? {
        let mut words = Words::new(alloc);
        add_words(alloc, &mut words, part(row, 0))?;
        let text = lines_text(alloc, &words)?;
        let want = unfolded(alloc, part(row, 1))?;
        assert_eq!(rt; text.as_str(), want.as_str(), "of {row:?}");
    }
    Ok(())
}

#[test]
fn adds_the_words_of_a_later_round(rt: HostRuntime) -> Result<(), Fail> {
    let alloc = rt.alloc();
    let mut words = Words::new(alloc);
    let mut more = Words::new(alloc);
    add_words(alloc, &mut words, "b.o x.h, all")?;
    add_words(alloc, &mut more, "a.o x.h, all, b.o y.h")?;
    assert!(rt; words.add_all(alloc, &more)?);
    assert_eq!(rt; words.len(), 4);
    let text = lines_text(alloc, &words)?;
    assert_eq!(rt; text.as_str(), ".PHONY: all\nb.o: x.h y.h\na.o: x.h\n");
    assert!(rt; !words.add_all(alloc, &more)?);
    assert_eq!(rt; words.len(), 4);
    Ok(())
}
