// An accepted list, and what it is squeezed to.
ghost use Rattle.std.specs.Prelude.{◌≡◌, ◌+◌, ◌≤◌, length, ltb};
ghost use Rattle.format.specs.Format.{basis_of};
ghost use Rattle.lists.specs.inner.Walk.{Walkable};

use crate::kinds::{is_setting, kind_sizes};
use crate::put::put_shape;
use crate::target::{Length, Target};
use format::{HEADER_SIZE, Header};
use settings::Settings;
use shapes::Basis;

#[derive(Clone, Copy)]
pub(crate) struct Source<'a> {
    pub(crate) list: &'a [u8],
    pub(crate) header: Header,
    ghost walkable: { Walkable list.now (basis_of header) },
}

impl Source<'_> {
    ghost use Rattle.squeezed.specs.Squeeze.{all_bytes};
    ghost use Rattle.squeezed.specs.inner.Size.{size_of};
    ghost use Rattle.squeeze.specs.inner.Target.{Took};
    ghost use Rattle.squeeze.specs.inner.Source.{kept_in, squeezed_source};

    // The records that are kept. The list's last byte is the end record.
    fn put_records<T: Target>(self, target: &mut T)
        requires { T.end target.old + size_of (kept_in self) ≤ T.most target.old }
        ensures { Took T.end T.most T.Wrote target.old (all_bytes (kept_in self.entry)) target.new }
    {
        let list = self.list;
        let sizes = kind_sizes();
        let mut settings = Settings::start(Basis::from(self.header));
        let mut before = settings;
        let mut place = HEADER_SIZE;
        // no index is counted: a walk goes by the size of each record
        while place + 1 < list.len() {
            let kind = list[place];
            if is_setting(kind) {
                let rec = decoding::decode(&list[place..]);
                settings.apply(rec);
                place = records::read::next_place(list, place);
            } else {
                let next = place + sizes[kind as usize];
                let bytes = &list[place..next];
                put_shape(target, before, settings, bytes);
                before = settings;
                place = next;
            }
        }
        target.put(&[0]);
    }

    // The header, and behind it the records that are kept.
    pub(crate) fn put_into<T: Target>(self, target: &mut T)
        requires { T.end target.old + length (squeezed_source self) ≤ T.most target.old }
        ensures { Took T.end T.most T.Wrote target.old (squeezed_source self.entry) target.new }
    {
        let bytes = encoding::header_bytes(self.header);
        target.put(&bytes[..HEADER_SIZE]);
        self.put_records(target);
    }

    // How many bytes it is squeezed to.
    fn squeezed_length(self) -> usize
        ensures { result ≡ length (squeezed_source self.entry) }
    {
        let mut target = Length { bytes: 0 };
        self.put_into(&mut target);
        target.bytes
    }

    // Whether n bytes are too few. What a list is squeezed to is never longer than the list, so that it is measured only for less.
    pub(crate) fn overflows(self, n: usize) -> bool
        ensures { result ≡ ltb n (length (squeezed_source self.entry)) }
    {
        n < self.list.len() && n < self.squeezed_length()
    }
}
