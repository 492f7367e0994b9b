use super::*;
use std::test::Fail;

#[test]
fn finds_words(rt: HostRuntime) -> Result<(), Fail> {
    let rows: [(&[u8], bool, Option<u8>); 18] = [
        (b"package", false, Some(0)),
        (b"package", true, Some(0)),
        (b"synchronized", false, Some(10)),
        (b"const", true, Some(52)),
        (b"pure", false, None),
        (b"pure", true, Some(53)),
        (b"long", false, Some(49)),
        (b"spec_protected", true, Some(59)),
        (b"spec_safe_math", true, Some(60)),
        (b"spec_java_math", true, Some(61)),
        (b"spec_safe_math", false, None),
        (b"spec_java_math", false, None),
        (b"monitors_for", true, Some(70)),
        (b"represents", true, Some(82)),
        (b"commit", true, None),
        (b"Class", false, None),
        (b"clas", false, None),
        (b"", true, None),
    ];
    for (word, jml, row) in rows {
        assert_eq!(rt; keyword(word, jml), row);
    }
    Ok(())
}

#[test]
fn finds_rows(rt: HostRuntime) -> Result<(), Fail> {
    let rows: [(u8, &str, RowArg); 5] = [
        (1, "int", RowArg::Number),
        (39, "rne", RowArg::Nothing),
        (70, "throwlocal", RowArg::Local),
        (71, "long", RowArg::LongPlace),
        (93, "waitfor", RowArg::Nothing),
    ];
    for (code, name, arg) in rows {
        assert_eq!(rt; effect(code).name, name);
        assert_eq!(rt; effect(code).arg, arg);
    }
    Ok(())
}
