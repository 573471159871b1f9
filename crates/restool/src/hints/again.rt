//! The files of a run, read once more.

use command_base::{InputFault, Inputs, Place};

/// What gives the bytes of those files of other inputs that can be read a second time.
#[derive(Drop)]
pub(crate) struct Again<'i, I> {
    pub inputs: &'i I,
}

impl<I: Inputs> Inputs for Again<'_, I> {
    fn read(&self, place: Place<'_>) -> Result<Vec<u8>, InputFault> {
        match place {
            Place::StandardInput => Err(InputFault::Read),
            Place::File(path) => self.inputs.read_again(path).ok_or(InputFault::Read),
        }
    }

    fn read_again(&self, path: &str) -> Option<Vec<u8>> {
        self.inputs.read_again(path)
    }

    fn folder(&self) -> Option<String> {
        self.inputs.folder()
    }
}
