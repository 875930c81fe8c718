//! The file of a Unix socket, which the server makes and removes.

use mio::net::UnixStream;
use std::fs::Metadata;
use std::io::ErrorKind;
use std::net::Net;
use std::os::unix::fs::{FileTypeExt, MetadataExt};
use std::os::unix::net::UnixListener;
use std::rt::Files;
use std::{fs, io};

/// A socket file that this server has created, as long as no other is in its place.
#[derive(Drop)]
pub struct SocketFile<'a> {
    path: &'a str,
    device: u64,
    inode: u64,
}

impl<'a> SocketFile<'a> {
    /// Listens at the path, by a file that replaces one at which no one listens. Returns an error if any other file is
    /// there, or a server listens, which a connection finds out that is closed at once.
    pub fn bind<R: Net + Files>(
        rt: &R,
        path: &'a str,
    ) -> io::Result<(UnixListener, SocketFile<'a>)> {
        if is_left(rt, path) {
            fs::remove_file(rt, path)?;
        }
        let listener = UnixListener::bind(rt, path)?;
        let made = fs::symlink_metadata(rt, path)?;
        let file = SocketFile {
            path,
            device: made.dev(),
            inode: made.ino(),
        };
        Ok((listener, file))
    }

    /// The path of the file.
    pub fn path(&self) -> &'a str {
        self.path
    }

    /// Removes the file, if it is the one that was created.
    pub fn remove<R: Files>(&self, rt: &R) {
        if let Ok(found) = fs::symlink_metadata(rt, self.path) {
            if self.is(&found) {
                let _removed = fs::remove_file(rt, self.path);
            }
        }
    }

    fn is(&self, found: &Metadata) -> bool {
        found.dev() == self.device && found.ino() == self.inode
    }
}

/// Returns whether the path has a socket file at which no one listens.
fn is_left<R: Net + Files>(rt: &R, path: &str) -> bool {
    match fs::symlink_metadata(rt, path) {
        Ok(found) => found.file_type().is_socket() && is_refused(rt, path),
        Err(_) => false,
    }
}

/// Returns whether no one listens. The connection waits for nothing: one that would have to wait for a listener has
/// one.
fn is_refused<R: Net>(rt: &R, path: &str) -> bool {
    match UnixStream::connect(rt, path) {
        Ok(_) => false,
        Err(error) => error.kind() == ErrorKind::ConnectionRefused,
    }
}
