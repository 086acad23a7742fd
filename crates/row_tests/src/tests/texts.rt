//! Batch texts that several crates' rows begin from, and what is read from them.

use batch::{Batch, Shape};
use link_graph::LinkGraph;
use std::alloc::{AllocError, Global};

/// Row three-transfers. Transfers 0 and 1 use link 0 of module 0, 1 and 2 link 3 of module 2.
pub const THREE_TRANSFERS: &str = "batch 3\npush 0 0 1 0\npush 0 1 2 0\npush 1 1 2 1\n";

/// Row first-fit-loses. Transfers 0 and 3 have a common link, and so have 3 and 2, and 2 and 1.
pub const FIRST_FIT_LOSES: &str =
    "batch 4\npush 0 0 0 1\npush 1 0 1 1\npush 1 1 2 0\npush 0 2 2 1\n";

/// Row four-by-four: each link has four uses.
pub const FOUR_BY_FOUR: &str = "\
batch 16
push 0 4 0 0
push 0 4 1 0
push 0 4 2 0
push 0 4 3 0
push 1 4 0 1
push 1 4 1 1
push 1 4 2 1
push 1 4 3 1
push 2 4 0 2
push 2 4 1 2
push 2 4 2 2
push 2 4 3 2
push 3 4 0 3
push 3 4 1 3
push 3 4 2 3
push 3 4 3 3
";

/// Row even-pairs: four transfers from module 0 to module 1, and four from module 2 to module 1.
pub const EVEN_PAIRS: &str = "\
batch 8
push 0 0 1 0
push 2 0 1 4
push 2 1 1 5
push 0 1 1 1
push 0 2 1 2
push 2 2 1 6
push 0 3 1 3
push 2 3 1 7
";

/// Row three-by-three: each link has three uses.
pub const THREE_BY_THREE: &str = "\
batch 9
push 0 3 0 0
push 0 3 1 0
push 0 3 2 0
push 1 3 0 1
push 1 3 1 1
push 1 3 2 1
push 2 3 0 2
push 2 3 1 2
push 2 3 2 2
";

/// A transfer of one pair of links.
pub const ONE_PAIR: &[&str] = &["push 0 0 1 0\n"];

/// The text of a batch of these lines, so many times.
pub fn repeated(alloc: Global, lines: &[&str], times: usize) -> Result<String, AllocError> {
    let count = lines.len().saturating_mul(times);
    let mut text = format!(in alloc; "batch {count}\n")?;
    for _ in 0..times {
        for line in lines {
            text.push_str(line)?;
        }
    }
    Ok(text)
}

/// The batch of a text, against the widest shape.
pub fn read(alloc: Global, text: &str) -> Option<Batch> {
    Batch::read(alloc, text.as_bytes(), Shape::WIDEST).ok()
}

/// The graph of a batch text.
pub fn graph(alloc: Global, text: &str) -> Option<LinkGraph> {
    let batch = read(alloc, text)?;
    LinkGraph::of(&batch).ok()
}
