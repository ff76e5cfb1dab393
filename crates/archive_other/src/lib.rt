// An archive of another kind, and code that knows archives by their interface alone.
#![tactic(auto)]

mod generic;
mod harbour;

pub use generic::{evaluated, steady, told_by_text};
pub use harbour::{Harbour, Tide};

#[cfg(test)]
mod tests {
    use super::*;
    use archive::{Archive, ById, ByPath, Identifier, Path, Printable, Row, supplied};
    use std::test::Fail;

    // Whether a function gives, of the values that two codes stand for, the value with that text.
    fn gives<P: Printable>(archive: &P, function: u8, codes: [u32; 2], text: &[u8]) -> bool {
        let a = archive.leaf(codes[0]);
        let b = archive.leaf(codes[1]);
        let c = supplied(archive, None);
        let value = archive.apply(function, a, b, c);
        archive.text(value).as_slice() == text
    }

    #[test]
    fn tides(rt: HostRuntime) {
        let archive = Harbour { flood: 5 };
        assert!(rt; archive.count(7) == Some(3));
        assert!(rt; archive.count(2) == None);
        assert!(rt; gives(&archive, 7, [5, 9], b"h"));
        assert!(rt; gives(&archive, 7, [4, 9], b"l"));
        assert!(rt; gives(&archive, 9, [4, 9], b"h"));
        assert!(rt; told_by_text(&archive, Tide::Low, archive.leaf(4)));
        assert!(rt; steady(&archive, 5, 7));
    }

    #[test]
    fn by_identifier(rt: HostRuntime) -> Result<(), Fail> {
        let rows = vec![in rt.alloc();
            Row {
                clip: Identifier(7),
                frames: 1000
            },
            Row {
                clip: Identifier(9),
                frames: 4294967295
            },
            Row {
                clip: Identifier(7),
                frames: 24
            },
        ]?;
        let archive = ById::new(rows);
        assert!(rt; archive.count(3) == Some(2));
        assert!(rt; archive.count(7) == None);
        assert!(rt; gives(&archive, 1, [8, 0], b"c8"));
        assert!(rt; gives(&archive, 7, [7, 7], b"-"));
        assert!(rt; gives(&archive, 1, [0, 7], b"-"));
        assert!(rt; gives(&archive, 4, [0, 7], b"c7"));
        let zero = evaluated(&archive, 0, &[]);
        let short = evaluated(&archive, 3, &[zero, archive.leaf(7)]);
        let long = evaluated(&archive, 3, &[zero, archive.leaf(9)]);
        assert!(rt; archive.text(short).as_slice() == b"f1000".as_slice());
        assert!(rt;
            archive
                .text(evaluated(&archive, 2, &[short, long]))
                .as_slice()
                == b"f4294967295".as_slice()
        );
        assert!(rt;
            archive
                .text(evaluated(&archive, 5, &[short, zero]))
                .as_slice()
                == b"f1000".as_slice()
        );
        assert!(rt;
            archive
                .text(evaluated(&archive, 3, &[zero, archive.leaf(8)]))
                .as_slice()
                == b"-".as_slice()
        );
        Ok(())
    }

    #[test]
    fn by_path(rt: HostRuntime) -> Result<(), Fail> {
        let rows = vec![in rt.alloc();
            Row {
                clip: Path {
                    volume: 1,
                    folder: 2,
                    name: 3
                },
                frames: 1000
            },
            Row {
                clip: Path {
                    volume: 4294967295,
                    folder: 4294967295,
                    name: 4294967295
                },
                frames: 24
            },
        ]?;
        let archive = ByPath::new(rows);
        assert!(rt; gives(&archive, 1, [1, 2], b"p1/2/3"));
        assert!(rt; gives(&archive, 1, [2, 1], b"p4294967295/4294967295/4294967295"));
        assert!(rt; gives(&archive, 1, [3, 1], b"-"));
        assert!(rt; gives(&archive, 4, [0, 1], b"p1/2/3"));
        assert!(rt; gives(&archive, 7, [1, 1], b"-"));
        let zero = evaluated(&archive, 0, &[]);
        let short = evaluated(&archive, 3, &[zero, archive.leaf(2)]);
        let both = evaluated(&archive, 3, &[short, archive.leaf(1)]);
        assert!(rt; archive.text(both).as_slice() == b"f1024".as_slice());
        Ok(())
    }
}
