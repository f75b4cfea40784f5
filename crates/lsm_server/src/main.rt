//! The program `lsm_server`: a database of the system's, served over channels.
#![tactic(auto)]

mod descriptor_wire;
mod log;
mod opens;
mod system_descriptors;
mod system_door;

use crate::system_descriptors::SystemDescriptors;
use crate::system_door::SystemDoor;
use lsm_channels::serve_opening;
use lsm_directory::SystemPaths;

fn main(rt: HostRuntime) {
    let Ok(paths) = rt.clone() else {
        return;
    };
    let Ok(files) = rt.clone() else {
        return;
    };
    let door = SystemDoor::new(SystemPaths::new(paths));
    let mut descriptors = SystemDescriptors::new(files);
    let _run = serve_opening(&rt, door, &mut descriptors);
}
