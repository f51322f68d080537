//! The markers in linked files: of the version, the encoding and the profile.
use crate::files::{Linked, put_unlike};
use crate::rows::Kind;
use crate::symbols::put_symbols;
use std::alloc::Global;
use std::test::Fail;
use test_rows::each_block;

// The symbols behind the markers: three of `.defmt`, of which one has another name, and one of another section.
const OTHERS: &str =
    r#"3 3 {"package":"app","tag":"defmt_info","data":"hello","disambiguator":"7","crate_name":"app","x":[1,{"y":null}]}
2 4 {"out":0}
3 0 {"zero":0}
3 2 main"#;

/// Pushes the symbols of a file with these markers, of which the first lies in `.defmt`.
pub fn push_marked(linked: &mut Linked, markers: &str) -> Result<(), Fail> {
    let Some((version, others)) = markers.split_once('\n') else {
        return Err(Fail::new("no markers"));
    };
    linked.begin("3 0\n3 0 $d")?;
    linked.push_named(3, 0, version)?;
    for marker in others.lines() {
        linked.push_named(65521, 0, marker)?;
    }
    linked.push_lines(OTHERS)
}

fn put_marked(alloc: Global, wide: bool, markers: &str, file: &mut Vec<u8>) -> Result<(), Fail> {
    let mut linked = Linked::new(alloc, wide);
    push_marked(&mut linked, markers)?;
    linked.put_file(file)
}

fn put_symbols_by_markers(
    alloc: Global,
    wide: bool,
    markers: &str,
    out: &mut String,
) -> Result<(), Fail> {
    let mut file = Vec::new(alloc);
    put_marked(alloc, wide, markers, &mut file)?;
    put_symbols(alloc, &file, out)
}

pub fn put_answer_to_markers(alloc: Global, markers: &str, out: &mut String) -> Result<(), Fail> {
    put_symbols_by_markers(alloc, false, markers, out)?;
    let mut wide = String::new(alloc);
    put_symbols_by_markers(alloc, true, markers, &mut wide)?;
    put_unlike(wide.as_str(), out)
}

const MARKERS: &str = "\
\"_defmt_version_ = 4\"
_defmt_encoding_ = rzcobs
=
2 symbols; 3 {\"package\":\"app\",\"tag\":\"defmt_info\",\"data\":\"hello\",\"disambiguator\":\"7\",\"crate_name\":\"app\",\"x\":[1,{\"y\":null}]}; 0 {\"zero\":0}

\"_defmt_version_ = 4\"
\"_defmt_encoding_ = rzcobs\"
=
2 symbols; 3 {\"package\":\"app\",\"tag\":\"defmt_info\",\"data\":\"hello\",\"disambiguator\":\"7\",\"crate_name\":\"app\",\"x\":[1,{\"y\":null}]}; 0 {\"zero\":0}

_defmt_version_ = 4
_defmt_encoding_ = rzcobs
=
2 symbols; 3 {\"package\":\"app\",\"tag\":\"defmt_info\",\"data\":\"hello\",\"disambiguator\":\"7\",\"crate_name\":\"app\",\"x\":[1,{\"y\":null}]}; 0 {\"zero\":0}

_defmt_version_ = 4
\"_defmt_encoding_ = rzcobs\"
=
2 symbols; 3 {\"package\":\"app\",\"tag\":\"defmt_info\",\"data\":\"hello\",\"disambiguator\":\"7\",\"crate_name\":\"app\",\"x\":[1,{\"y\":null}]}; 0 {\"zero\":0}

_defmt_version_ = 5
_defmt_encoding_ = rzcobs
=
cause 7 Nothing 0

_defmt_version_ = 40
_defmt_encoding_ = rzcobs
=
cause 7 Nothing 0

_defmt_version_ =\x20
_defmt_encoding_ = rzcobs
=
cause 7 Nothing 0

_defmt_version_= 4
_defmt_encoding_ = rzcobs
=
cause 7 Nothing 0

'_defmt_version_ = 4'
_defmt_encoding_ = rzcobs
=
cause 7 Nothing 0

\"_defmt_version_ = 4
_defmt_encoding_ = rzcobs
=
cause 7 Nothing 0

_defmt_version_ = 4\"
_defmt_encoding_ = rzcobs
=
cause 7 Nothing 0

\"
_defmt_encoding_ = rzcobs
=
cause 7 Nothing 0

_defmt_version_ = 4
_defmt_encoding_ = raw
=
cause 8 Nothing 0

_defmt_version_ = 4
_defmt_encoding_ = rzcobs\x20
=
cause 8 Nothing 0

_defmt_version_ = 4
\"_defmt_encoding_ = raw\"
=
cause 8 Nothing 0

_defmt_version_ = 4
_defmt_version_ = 4
=
cause 8 Nothing 0

_defmt_version_ = 4
_defmt_encoding_ = rzcobs
_defmt_profile_ = 2
=
2 symbols; 3 {\"package\":\"app\",\"tag\":\"defmt_info\",\"data\":\"hello\",\"disambiguator\":\"7\",\"crate_name\":\"app\",\"x\":[1,{\"y\":null}]}; 0 {\"zero\":0}; profile Two

_defmt_version_ = 4
_defmt_encoding_ = rzcobs
\"_defmt_profile_ = 2\"
=
2 symbols; 3 {\"package\":\"app\",\"tag\":\"defmt_info\",\"data\":\"hello\",\"disambiguator\":\"7\",\"crate_name\":\"app\",\"x\":[1,{\"y\":null}]}; 0 {\"zero\":0}; profile Two

_defmt_version_ = 4
_defmt_encoding_ = rzcobs
_defmt_profile_ = 2
\"_defmt_profile_ = 2\"
=
2 symbols; 3 {\"package\":\"app\",\"tag\":\"defmt_info\",\"data\":\"hello\",\"disambiguator\":\"7\",\"crate_name\":\"app\",\"x\":[1,{\"y\":null}]}; 0 {\"zero\":0}; profile Two

_defmt_version_ = 4
_defmt_encoding_ = rzcobs
_defmt_profile_ = 1
=
2 symbols; 3 {\"package\":\"app\",\"tag\":\"defmt_info\",\"data\":\"hello\",\"disambiguator\":\"7\",\"crate_name\":\"app\",\"x\":[1,{\"y\":null}]}; 0 {\"zero\":0}

_defmt_version_ = 4
_defmt_encoding_ = rzcobs
_defmt_profile_= 2
=
2 symbols; 3 {\"package\":\"app\",\"tag\":\"defmt_info\",\"data\":\"hello\",\"disambiguator\":\"7\",\"crate_name\":\"app\",\"x\":[1,{\"y\":null}]}; 0 {\"zero\":0}

_defmt_version_ = 4
_defmt_encoding_ = rzcobs
\"_defmt_profile_ = 2
=
2 symbols; 3 {\"package\":\"app\",\"tag\":\"defmt_info\",\"data\":\"hello\",\"disambiguator\":\"7\",\"crate_name\":\"app\",\"x\":[1,{\"y\":null}]}; 0 {\"zero\":0}

_defmt_version_ = 4
_defmt_encoding_ = rzcobs
_defmt_profile_ = 3
=
cause 9 Nothing 0

_defmt_version_ = 4
_defmt_encoding_ = rzcobs
_defmt_profile_ = 22
=
cause 9 Nothing 0

_defmt_version_ = 4
_defmt_encoding_ = rzcobs
_defmt_profile_ =\x20
=
cause 9 Nothing 0

_defmt_version_ = 4
_defmt_encoding_ = rzcobs
_defmt_profile_ = 1
\"_defmt_profile_ = 2\"
=
cause 9 Nothing 0

_defmt_version_ = 5
_defmt_encoding_ = rzcobs
_defmt_profile_ = 3
=
cause 7 Nothing 0

_defmt_version_ = 4
_defmt_encoding_ = raw
_defmt_profile_ = 3
=
cause 8 Nothing 0";

#[test]
fn the_markers_are_taken_in_both_spellings_and_in_no_other(rt: HostRuntime) -> Result<(), Fail> {
    each_block(rt.alloc(), MARKERS, 28, &Kind::AnswerToMarkers)
}
