use crate::example::tell;
use crate::show::render;
use std::test::Fail;

#[test]
fn a_record_is_drawn(rt: HostRuntime) -> Result<(), Fail> {
    let bytes = [
        16, 0, 0, 0, 1, 0, 2, 0, 0x41, 7, 6, 0, 0, 0, 2, 0, 2, 0, 0x31, 0xff,
    ];
    let shown = render(rt.alloc(), "r", &bytes)?;
    let Ok(tree) = shown else {
        return Err(Fail::new("no tree is drawn"));
    };
    assert_eq!(rt;
        tree.as_str(),
        "r is a record: 20 bytes, 2 nodes, 2 levels.\nkind 1, offset 0, 20 bytes: \"A\\u{7}\"\n└─ kind 2, offset 10, 10 bytes: \"1\\xff\"\n"
    );
    Ok(())
}

#[test]
fn a_stray_byte_is_explained(rt: HostRuntime) -> Result<(), Fail> {
    let shown = render(rt.alloc(), "r", &[4, 0, 0, 0, 1, 0, 0, 0, 9])?;
    let Err(sentence) = shown else {
        return Err(Fail::new("a tree is drawn"));
    };
    assert!(rt;
        sentence
            .as_str()
            .starts_with("r is refused by number 2 (layer record, place 8): ")
    );
    assert!(rt; sentence.as_str().ends_with("The bytes there are 09.\n"));
    Ok(())
}

#[test]
fn the_example_points_once(rt: HostRuntime) -> Result<(), Fail> {
    let told = tell(rt.alloc())?;
    assert!(rt;
        told.as_str()
            .contains("Mark 0 of pattern 0 in record 0: (0, 10).\n")
    );
    assert!(rt;
        told.as_str()
            .contains("Mark 1 of pattern 0 in record 0: no node.\n")
    );
    Ok(())
}
