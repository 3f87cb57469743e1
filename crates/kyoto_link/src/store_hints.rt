//! What can be seen of a store that failed, for a hint.

use crate::system_files::{SystemFiles, store_path};
use commands::Archive;
use protocol::units::Node;
use std::fs;
use std::fs::OpenOptions;
use std::io::ErrorKind;
use stores::StoreFault;

/// Why the file of a store can't be used, as far as the system tells.
fn cause_of_device(rt: &HostRuntime, folder: &str, path: &str) -> &'static str {
    if !SystemFiles::new(rt).has_folder(folder) {
        return "its folder doesn't exist";
    }
    match fs::metadata(rt, path) {
        Ok(metadata) if metadata.is_dir() => return "a folder has its name",
        Ok(_) => {}
        Err(error) if error.kind() == ErrorKind::NotFound => {
            return "it doesn't exist, and can't be created";
        }
        Err(_) => return "its folder may not be entered",
    }
    if OpenOptions::new().read(true).open(rt, path).is_err() {
        return "it may not be read";
    }
    if OpenOptions::new().write(true).open(rt, path).is_err() {
        return "it may not be written";
    }
    "another program has locked it, a limit allows no larger file, or the device failed"
}

/// Names the file that a store would have.
pub(crate) fn tell_no_store(rt: &HostRuntime, folder: &str, node: Node) {
    if let Ok(path) = store_path(rt.alloc(), folder, node) {
        let _ = eprintln!(rt; "kyoto-link: there is no file {}", path.as_str());
    }
}

/// Names the file of a store, and why it can't be used.
pub(crate) fn tell_store(rt: &HostRuntime, folder: &str, node: Node, fault: StoreFault) {
    let Ok(path) = store_path(rt.alloc(), folder, node) else {
        return;
    };
    let path = path.as_str();
    let _ = match fault {
        StoreFault::Device => eprintln!(rt;
            "kyoto-link: the store is {path}; {}",
            cause_of_device(rt, folder, path)
        ),
        _ => eprintln!(rt; "kyoto-link: the store is {path}"),
    };
}
