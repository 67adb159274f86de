//! The program: the top call over the real site, the words of the command line and the exit status.
#![tactic(auto)]

mod words;

use crate::words::{lacks_words, words_of};
use ox_app::{Status, run};
use ox_real_site::{Addresses, RealSite, addresses_in, listen};
use std::alloc::Global;
use std::env::Env;
use std::fs::File;
use std::io::{Stdin, Stdout};
use std::net::{Net, TcpListener, TcpStream};
use std::process::ExitCode;
use std::rt::{Clock, Files};

/// Takes the folder as its first word, of `serve` the addresses of both doors behind the turns, and
/// hands the others to `run`, whose status gives the exit status. It ends, in this order, as
/// `Usage` where its own words are missing, as `Memory` where there is none for the words, as
/// `DiskFault` where the folder's files can't be opened, another program has them, the folder can't
/// be synced, or standard input or output is closed, and as `DoorFault` where it can't listen; it
/// prints nothing then.
fn main(rt: HostRuntime) -> ExitCode {
    ExitCode::from(ended(&rt, rt.alloc(), rt.stdin(), rt.stdout()).code())
}

/// How the program ends with this input and output.
fn ended<R>(rt: &R, alloc: Global, input: Stdin, output: Stdout) -> Status
where
    R: Env + Files<File = File> + Net<Listener = TcpListener, Stream = TcpStream> + Clock,
{
    if lacks_words(rt) {
        return Status::Usage;
    }
    let Ok(mut words) = words_of(rt, alloc) else {
        return Status::Memory;
    };
    let addresses = addresses_in(&mut words);
    let Some((folder, others)) = words.as_slice().split_first() else {
        return Status::Usage;
    };
    let Ok(mut site) = RealSite::open(rt, alloc, folder.as_slice(), input, output) else {
        return Status::DiskFault;
    };
    if !opens(rt, alloc, addresses, &mut site) {
        return Status::DoorFault;
    }
    run(alloc, others, &mut site)
}

/// Opens the doors at these addresses, if there are any. Whether that worked.
fn opens<'a, R>(
    rt: &'a R,
    alloc: Global,
    addresses: Option<Addresses>,
    site: &mut RealSite<&'a R>,
) -> bool
where
    R: Net<Listener = TcpListener, Stream = TcpStream> + Clock,
{
    let Some(addresses) = addresses else {
        return true;
    };
    match listen(rt, alloc, &addresses) {
        Ok(links) => {
            site.open_doors(links);
            true
        }
        Err(_) => false,
    }
}
