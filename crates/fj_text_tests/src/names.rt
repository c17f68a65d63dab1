//! Tests of the names of variables.
use fj_text::Names;
use std::test::Fail;

#[test]
fn places_of_words(rt: HostRuntime) -> Result<(), Fail> {
    let names = Names::of(rt.alloc(), &["x", "_y2", "Z"])?;
    assert_eq!(rt; names.len(), 3);
    let rows: [(&[u8], Option<usize>); 5] = [
        (b"x", Some(0)),
        (b"_y2", Some(1)),
        (b"Z", Some(2)),
        (b"z", None),
        (b"", None),
    ];
    for (word, place) in rows {
        assert!(rt; names.place(word) == place);
    }
    Ok(())
}
