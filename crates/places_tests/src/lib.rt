// Tables in shape, and tables damaged in each way that the shape forbids.
#![tactic(auto)]

#[cfg(test)]
mod tests {
    use places::{Node, Parent, Place, first_owed_in_tree, free_places, is_shaped, owed_total};
    use sheet::Sheet;
    use std::alloc::{AllocError, Global};
    use std::process::Abort;
    use std::test::Fail;

    // Days of blocks and clips, the text of examples/day.sheet, which code cannot read in as it is built; a crate of its
    // own would only hold it and `day_sheet`.
    const DAY: &[u8] =
        b"symbol=1 S1\nsymbol=2 S1 I2 I2 S2\nrule=0 1\nset=0.0 1 1.3\nset=1.1 0\nset=1.2 6\nplan=v1.1 e1.1 e1.2 v1.2 e0.0 r1\nrule=1 1 1\nset=0.0 4 1.0 2.0\nset=0.3 1 2.3\nset=1.1 1 0.1\nset=1.2 4 2.0 0.2\nset=2.1 1 1.3\nset=2.2 1 0.2\nplan=v1.1 v2.1 e0.0 r1 e1.1 e1.2 v1.2 e2.1 e2.2 v2.2 e0.3 r2\nrule=1\nset=0.0 1 d\nset=0.3 3 0.1 d\nplan=e0.0 r1 e0.3 r2\n";

    fn below(place: u16, position: u16) -> Option<Parent> {
        Some(Parent { place, position })
    }

    fn node(rule: u16, parent: Option<Parent>, children: [u16; 4], marks: u16) -> Place {
        Some(Node {
            rule,
            datum: 7,
            parent,
            children,
            marks,
        })
    }

    fn clip(parent: Option<Parent>, marks: u16) -> Place {
        node(2, parent, [0, 0, 0, 0], marks)
    }

    // A day of one block of two clips at places 0 to 3, a held block of two clips at 4 to 6, and a free place.
    fn day() -> [Place; 8] {
        [
            node(0, None, [1, 0, 0, 0], 0),
            node(1, below(0, 1), [2, 3, 0, 0], 0),
            clip(below(1, 1), 8),
            clip(below(1, 2), 15),
            node(1, None, [5, 6, 0, 0], 6),
            clip(below(4, 1), 0),
            clip(below(4, 2), 0),
            None,
        ]
    }

    // The day with two places replaced.
    fn damaged(first: (usize, Place), second: (usize, Place)) -> [Place; 8] {
        let mut places = day();
        if let Some(place) = places.get_mut(first.0) {
            *place = first.1;
        }
        if let Some(place) = places.get_mut(second.0) {
            *place = second.1;
        }
        places
    }

    fn day_sheet(rt: &impl Abort, heap: Global) -> Result<Sheet, Fail> {
        let mut sheet = Sheet::new(heap)?;
        assert!(rt; sheet.read(DAY).is_ok());
        Ok(sheet)
    }

    #[test]
    fn intact(rt: HostRuntime) -> Result<(), Fail> {
        let sheet = day_sheet(&rt, rt.alloc())?;
        assert!(rt; is_shaped(&sheet, &day(), 0));
        assert!(rt; free_places(&day()) == 1);
        assert!(rt; owed_total(&day()) == 7);
        assert!(rt; first_owed_in_tree(&day(), 0) == Some((2, 3)));
        assert!(rt; first_owed_in_tree(&day(), 4) == Some((4, 1)));
        Ok(())
    }

    #[test]
    fn damages(rt: HostRuntime) -> Result<(), Fail> {
        let sheet = day_sheet(&rt, rt.alloc())?;
        let none = (8, None);
        let cases = [
            // a child that is free, hangs nowhere, or elsewhere
            ((3, None), none),
            ((3, clip(None, 0)), none),
            ((3, clip(below(1, 1), 0)), none),
            ((3, clip(below(4, 2), 0)), none),
            // a parent that is free, has another child, or has no such child
            ((5, clip(below(7, 1), 0)), none),
            ((7, clip(below(1, 2), 0)), none),
            ((7, clip(below(1, 3), 0)), none),
            ((7, clip(below(1, 0), 0)), none),
            // a symbol that the rule does not have there, and an unknown rule
            ((1, node(0, below(0, 1), [2, 0, 0, 0], 0)), (3, None)),
            ((7, node(3, None, [0, 0, 0, 0], 0)), none),
            // climbing that does not end
            ((4, node(1, below(4, 1), [4, 6, 0, 0], 0)), (5, None)),
            // marks beyond the attributes
            ((0, node(0, None, [1, 0, 0, 0], 2)), none),
            ((2, clip(below(1, 1), 16)), none),
        ];
        for (first, second) in cases {
            assert!(rt; !is_shaped(&sheet, &damaged(first, second), 0));
        }
        Ok(())
    }

    // No place but the root of the day serves as root: others hang, have another symbol, are free, or are not there.
    #[test]
    fn roots(rt: HostRuntime) -> Result<(), Fail> {
        let sheet = day_sheet(&rt, rt.alloc())?;
        for root in 1..10 {
            assert!(rt; !is_shaped(&sheet, &day(), root));
        }
        Ok(())
    }

    // A day that goes down `blocks` blocks, each with a clip beside the next.
    fn deep_day(heap: Global, blocks: u8) -> Result<Vec<Place>, AllocError> {
        let mut places = Vec::new(heap);
        places.push(node(0, None, [1, 0, 0, 0], 0))?;
        let mut above = below(0, 1);
        for block in 0..blocks {
            let place = 2 * u16::from(block) + 1;
            places.push(node(1, above, [place + 2, place + 1, 0, 0], 0))?;
            places.push(clip(below(place, 2), 0))?;
            above = below(place, 1);
        }
        places.push(clip(above, 0))?;
        Ok(places)
    }

    #[test]
    fn depths(rt: HostRuntime) -> Result<(), Fail> {
        let sheet = day_sheet(&rt, rt.alloc())?;
        assert!(rt; is_shaped(&sheet, &deep_day(rt.alloc(), 62)?, 0));
        assert!(rt; !is_shaped(&sheet, &deep_day(rt.alloc(), 63)?, 0));
        Ok(())
    }

    #[test]
    fn sizes(rt: HostRuntime) -> Result<(), Fail> {
        let sheet = day_sheet(&rt, rt.alloc())?;
        assert!(rt; !is_shaped(&sheet, &[], 0));
        let mut places = day().to_vec(rt.alloc())?;
        for _ in 8..4096 {
            places.push(None)?;
        }
        assert!(rt; is_shaped(&sheet, &places, 0));
        places.push(None)?;
        assert!(rt; !is_shaped(&sheet, &places, 0));
        Ok(())
    }
}
