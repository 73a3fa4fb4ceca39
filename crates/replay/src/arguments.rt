// The words that the program is called with: --tree, --bits, --tell, --journal with a file's name after it, and the
// name of a file.
use crate::NAME;
use print::tree::TreeView;
use program::ProgramArguments;

// What is requested: what each program is asked, what is shown, and which argument names the journal, where one does.
#[derive(Clone, Copy)]
pub struct ReplayArguments {
    pub common: ProgramArguments,
    pub view: TreeView,
    pub journal: Option<usize>,
}

// What this program alone is asked so far, and whether a journal's name is next.
#[derive(Clone, Copy)]
struct OwnArguments {
    view: TreeView,
    journal: Option<usize>,
    naming: bool,
}

impl OwnArguments {
    // Takes one more argument: whether it is one of these, or what is wrong with it.
    fn take(&mut self, i: usize, word: &[u8]) -> Result<bool, &'static str> {
        match word {
            _ if self.naming => {
                self.journal = Some(i);
                self.naming = false;
            }
            b"--journal" if self.journal.is_some() => return Err("more than one journal"),
            b"--journal" => self.naming = true,
            b"--tree" => self.view.tree = true,
            b"--bits" => self.view.bits = true,
            _ => return Ok(false),
        }
        Ok(true)
    }
}

pub fn replay_arguments(rt: &HostRuntime) -> ReplayArguments {
    let mut own = OwnArguments {
        view: TreeView {
            tree: false,
            bits: false,
        },
        journal: None,
        naming: false,
    };
    let mut common = program::arguments(rt, NAME, |i, word| own.take(i, word));
    if own.naming {
        program::print_wrong(rt, NAME, "expected a file's name behind --journal");
        common.wrong = true;
    }
    ReplayArguments {
        common,
        view: own.view,
        journal: own.journal,
    }
}
