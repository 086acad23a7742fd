//! A word is raised from two watchers, read, and its watchers are joined.

use progress_word::ProgressWord;
use std::alloc::Global;

/// Whether a new word that is raised from one watcher to 5 and then to 3 is read as 0 before, and
/// from another watcher as 5 after each; and raised from that one to 8, it is read as 8 from both
/// joined.
fn only_rises(alloc: Global) -> bool {
    match ProgressWord::new(alloc) {
        Ok((word, mut first)) => {
            let mut second = word.split(&mut first);
            let new = word.load(&mut first);
            word.raise(&mut first, 5);
            let raised = word.load(&mut second);
            word.raise(&mut first, 3);
            let kept = word.load(&mut second);
            word.raise(&mut second, 8);
            word.join(&mut first, second);
            new == 0 && raised == 5 && kept == 5 && word.load(&mut first) == 8
        }
        Err(_) => false,
    }
}

#[test]
fn a_word_only_rises(rt: HostRuntime) {
    assert!(rt; only_rises(rt.alloc()));
}
