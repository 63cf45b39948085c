use adg_base::answer::{Answer, Cell, CellList, Line, LineList, Lines, Reply};
use adg_base::list::List;
use adg_base::number::Scn;
use adg_base::text::Text;
use answer_lines::render;
use std::alloc::Global;
use std::test::Fail;

fn line_of(alloc: Global, cells: Vec<Cell>) -> Result<Answer, Fail> {
    let mut answer = List::new(alloc);
    let line: CellList = List::from_vec(cells);
    answer.push(line)?;
    Ok(answer)
}

fn rows(alloc: Global, scn: Scn) -> Result<Reply, Fail> {
    let name = Text::new(alloc, b"a b")?;
    let mut answer = line_of(
        alloc,
        vec![in alloc;
            Cell::Null,
            Cell::Number(-170141183460469231731687303715884105728),
            Cell::Text(name),
        ]?,
    )?;
    let empty = Text::new(alloc, b"")?;
    answer.push(List::from_vec(vec![in alloc; Cell::Text(empty)]?))?;
    answer.push(List::from_vec(Vec::new(alloc)))?;
    Ok(Reply::Rows {
        scn,
        answer,
        col: 18446744073709551615,
        row: 0,
    })
}

fn line(number: u32, reply: Reply) -> Line {
    Line {
        session: 8,
        number,
        reply,
    }
}

/// One reply of each kind, and one of rows without a result line.
fn lines_of(alloc: Global, scn: Scn) -> Result<LineList, Fail> {
    let none = Reply::Rows {
        scn,
        answer: List::new(alloc),
        col: 0,
        row: 12,
    };
    let byte = 4294967295;
    Ok(List::from_vec(vec![in alloc;
        line(1, rows(alloc, scn)?),
        line(2, none),
        line(3, Reply::Populated { scn, units: 65535 }),
        line(4, Reply::Synced { scn }),
        line(5, Reply::Shown { scn }),
        line(6, Reply::Aborted { scn }),
        line(7, Reply::BadQuery { scn, byte }),
        line(8, Reply::NoTable { scn }),
        line(9, Reply::NotInMemory { scn }),
        line(10, Reply::NoColumn { scn }),
        line(11, Reply::WrongType { scn }),
        line(12, Reply::Down),
    ]?))
}

#[test]
fn prints_each_reply(rt: HostRuntime) -> Result<(), Fail> {
    let alloc = rt.alloc();
    let scn = Scn::new(281_474_976_710_655).ok_or("an SCN")?;
    let list = lines_of(alloc, scn)?;
    let bytes = render(
        alloc,
        &Lines {
            list,
            end: Scn::ZERO,
        },
        4294967295,
    )?;
    let want = b"d4294967295 s8 c1 scn=281474976710655 rows=3 col=18446744073709551615 row=0
= NULL|-170141183460469231731687303715884105728|'a b'
= ''
= 
d4294967295 s8 c2 scn=281474976710655 rows=0 col=0 row=12
d4294967295 s8 c3 scn=281474976710655 populated units=65535
d4294967295 s8 c4 scn=281474976710655 synced
d4294967295 s8 c5 scn=281474976710655 shown
d4294967295 s8 c6 scn=281474976710655 aborted
d4294967295 s8 c7 scn=281474976710655 refused BadQuery byte=4294967295
d4294967295 s8 c8 scn=281474976710655 refused NoTable
d4294967295 s8 c9 scn=281474976710655 refused NotInMemory
d4294967295 s8 c10 scn=281474976710655 refused NoColumn
d4294967295 s8 c11 scn=281474976710655 refused WrongType
d4294967295 s8 c12 down
d4294967295 end scn=0
";
    assert!(rt; bytes.as_slice() == want.as_slice());
    Ok(())
}
