//! The files that the rows so far gave.
#![tactic(auto)]

use std::alloc::{AllocError, Global};

/// Names and texts, in the order in which they were given.
#[derive(Drop)]
pub struct Files {
    files: Vec<(String, String)>,
}

impl Files {
    pub fn new(alloc: Global) -> Files {
        Files {
            files: Vec::new(alloc),
        }
    }

    pub fn all(&self) -> &[(String, String)] {
        self.files.as_slice()
    }

    /// The text of a name; it is empty where there is none.
    pub fn text(&self, name: &str) -> &str {
        for file in &self.files {
            if file.0.as_str() == name {
                return file.1.as_str();
            }
        }
        ""
    }

    /// Keeps a file, in place of an earlier one of the name.
    pub fn set(&mut self, alloc: Global, name: &str, text: &str) -> Result<(), AllocError> {
        self.files.retain(|file| file.0.as_str() != name);
        let name = String::from_str(alloc, name)?;
        self.files.push((name, String::from_str(alloc, text)?))?;
        Ok(())
    }
}
