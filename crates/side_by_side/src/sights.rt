// What a script asks of a mount beside calls, and where its text ends.
use crate::kept_trees::{KeptLayer, KeptMerge};
use ov_script::{Command, command_of};
use overlay_core::Core;
use script_reference::{Text, push_tree};
use std::alloc::Global;
use watch_table::{Callback, Rule};

/// What is seen of a mount: the layer of a number, or the merged tree.
#[derive(Clone, Copy)]
pub enum Sight {
    Layer(usize),
    Tree,
}

/// What a line of a script asks to see.
pub fn sight_of(line: &[u8]) -> Option<Sight> {
    match command_of(line) {
        Ok(Command::Layer { index }) => Some(Sight::Layer(index as usize)),
        Ok(Command::Merge) => Some(Sight::Tree),
        _ => None,
    }
}

impl Sight {
    /// Appends its lines; false where there is no layer of that number. Without an upper there is none of 0.
    pub fn push_lines<F: Callback, R: Rule>(
        self,
        alloc: Global,
        core: &Core<F, R>,
        lines: &mut Text,
    ) -> bool {
        let layers = core.layers();
        match self {
            Sight::Layer(0) if !core.has_upper() => return false,
            Sight::Tree => push_tree(alloc, &KeptMerge { layers }, lines),
            Sight::Layer(index) => match layers.layer(index) {
                Some(layer) => {
                    let kept = KeptLayer {
                        layers,
                        index,
                        layer,
                    };
                    push_tree(alloc, &kept, lines);
                }
                None => return false,
            },
        }
        true
    }
}
