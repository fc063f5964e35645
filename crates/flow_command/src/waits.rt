//! Says for whom a run between files waits.

use crate::devices::Chain;
use crate::words::Call;
use flowgraph::{BlockId, Valid};
use kinds::Kind;
use reader_threads::ReaderThreads;
use std::alloc::{AllocError, Global};
use std::io::{IsTerminal, Write};
use std::sync::Wait;

/// What was asked since the last wait, and in vain, if that is to be said.
#[derive(Drop)]
pub struct Waits {
    rt: HostRuntime,
    blocks: Vec<Asked>,
    // What was said last.
    said: Vec<u8>,
}

// A block, and whether it was asked in vain as a source or as a sink.
#[derive(Drop)]
struct Asked {
    name: Vec<u8>,
    is_silent: bool,
    is_full: bool,
}

impl Waits {
    /// It says something if the words ask for explanations. It fails only if the allocator refuses.
    pub fn new(
        rt: &HostRuntime,
        call: &Call<'_>,
        graph: &Valid<Kind>,
    ) -> Result<Waits, AllocError> {
        let alloc = rt.alloc();
        let mut blocks = Vec::new(alloc);
        if call.explains && !call.is_quiet {
            for block in 0..graph.len() {
                let mut name = Vec::new(alloc);
                name.extend_from_slice(graph.name(BlockId(block as u32)))?;
                blocks.reserve(1)?;
                blocks.push_reserved(Asked {
                    name,
                    is_silent: false,
                    is_full: false,
                });
            }
        }
        Ok(Waits {
            rt: *rt,
            blocks,
            said: Vec::new(alloc),
        })
    }

    /// The source has nothing.
    pub fn for_input(&mut self, source: BlockId) {
        if let Some(asked) = self.blocks.get_mut(source.0 as usize) {
            asked.is_silent = true;
        }
    }

    /// The sink takes nothing.
    pub fn for_output(&mut self, sink: BlockId) {
        if let Some(asked) = self.blocks.get_mut(sink.0 as usize) {
            asked.is_full = true;
        }
    }

    /// A wait is over.
    pub fn forget(&mut self) {
        for asked in &mut self.blocks {
            asked.is_silent = false;
            asked.is_full = false;
        }
    }

    /// Says for whom the run waits, unless it said just that. If memory runs out it says nothing.
    pub fn tell<R: Wait + Drop>(&mut self, readers: &ReaderThreads<Chain, R>) {
        let Ok(text) = self.text(readers) else {
            return;
        };
        if text.is_empty() || text == self.said {
            return;
        }
        let mut errors = self.rt.stderr();
        if errors.is_terminal() {
            // (the progress line goes, and comes again)
            let _ = errors.write_all(b"\r\x1b[K");
        }
        let _ = errors.write_all(&text);
        self.said = text;
    }

    fn text<R: Wait + Drop>(
        &self,
        readers: &ReaderThreads<Chain, R>,
    ) -> Result<Vec<u8>, AllocError> {
        let mut text = Vec::new(self.rt.alloc());
        let mut block = 0u32;
        for Asked {
            name,
            is_silent,
            is_full,
        } in &self.blocks {
            if *is_silent {
                push_line(&mut text, b"waits for input of ", name, b"")?;
            }
            if *is_full {
                push_line(&mut text, b"output of ", name, b" takes nothing")?;
            }
            if readers.has_read(BlockId(block)) {
                push_line(&mut text, b"input of ", name, b" is held back")?;
            }
            block = block.saturating_add(1);
        }
        Ok(text)
    }
}

fn push_line(
    text: &mut Vec<u8>,
    before: &[u8],
    name: &[u8],
    behind: &[u8],
) -> Result<(), AllocError> {
    text.extend_from_slice(b"flow: ")?;
    text.extend_from_slice(before)?;
    text.extend_from_slice(name)?;
    text.extend_from_slice(behind)?;
    text.extend_from_slice(b"\n")?;
    Ok(())
}
