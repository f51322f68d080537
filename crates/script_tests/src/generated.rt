//! Generated scripts.
use defmt_generate::generate;
use dl_io::Memory;

const TEN: &str = "ring 1024
mode block
reader live
stamp 1000 250
s boot defmt_info boot {=u8}
s temp defmt_debug temp {=i16} of {=[u8]:02x}
s link defmt_warn link {=bool} {=str:?}
s fail defmt_error fail {=u32:#010x}
s tick defmt_trace tick {=u64}
w 0 boot 57
w 1 temp -898 #a67ec6
w 2 link false \"port5\"
w 3 fail 3310558080
w 0 tick 119106029
w 1 boot 90
w 2 temp -968 #c706a6
w 3 link true \"port4\"
w 0 fail 238199713
w 1 tick 1341714958
";

#[test]
fn ten_statements_take_turns(rt: HostRuntime) -> Result<(), Memory> {
    let text = generate(rt.alloc(), 10)?;
    assert_eq!(rt; text.as_slice(), TEN.as_bytes());
    Ok(())
}

#[test]
fn the_most_statements_take_78812_bytes(rt: HostRuntime) -> Result<(), Memory> {
    let text = generate(rt.alloc(), 4096)?;
    assert_eq!(rt; text.len(), 78_812);
    Ok(())
}
