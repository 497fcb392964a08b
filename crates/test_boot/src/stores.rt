//! Stores and sinks in memory, and the sector pool.

use pico_board::{MemSink, MemStore, Sink, Store};
use sector_pool::SectorPool;
use std::test::Fail;

#[test]
fn a_store_reads_and_writes(rt: HostRuntime) -> Result<(), Fail> {
    let alloc = rt.alloc();
    let files = vec![in alloc; (String::from_str(alloc, "a")?, vec![in alloc; 1_u8, 2, 3]?)]?;
    let mut store = MemStore::make(alloc, files, Vec::new(alloc), Vec::new(alloc));
    let mut front = Vec::new(alloc);
    assert_eq!(rt; store.read("a", 1, &mut front), Ok(()));
    assert_eq!(rt; front.as_slice(), [1, 2].as_slice());
    assert_eq!(rt; store.write("b", &[7]), Ok(()));
    assert_eq!(rt; store.file("b"), Some([7].as_slice()));
    Ok(())
}

#[test]
fn a_sink_takes_what_is_put(rt: HostRuntime) -> Result<(), Fail> {
    let mut sink = MemSink::make(rt.alloc(), Vec::new(rt.alloc()));
    assert_eq!(rt; sink.put(&[1, 2]), Ok(()));
    assert_eq!(rt; sink.bytes(), [1, 2].as_slice());
    Ok(())
}

#[test]
fn a_pool_has_its_sectors(rt: HostRuntime) -> Result<(), Fail> {
    let pool = SectorPool::make(rt.alloc(), 4)?;
    assert_eq!(rt; pool.free(), 4);
    Ok(())
}
