// The links of a chain, one by one.
ghost use Rattle.std.specs.Prelude.{◌≡◌};
ghost use Rattle.std.specs.Iterator.{at_most};
ghost use Rattle.acts.specs.Links.{link_in, LinkByLink};

// The number of the link before it in its chain, 0 for none, and the right event and the time of its relation.
#[derive(Clone, Copy)]
pub struct Link {
    pub before: u64,
    pub right: usize,
    pub time: u32,
}

impl From<u64> for Link {
    ghost from_gives = { λ word link. link ≡ link_in word };

    fn from(word: u64) -> Link {
        Link {
            before: word % 512,
            right: (word / 512 % 64) as usize,
            time: (word / 32_768 % 1_073_741_824) as u32,
        }
    }
}

// Those that are still to come: from the one whose number is `next`, 0 for none.
#[derive(Drop)]
pub struct Links<'a> {
    pub links: &'a [u64; 256],
    pub next: u64,
}

impl<'a> Iterator for Links<'a> {
    type Item = Link;

    ghost next_gives = { LinkByLink };

    ghost remaining = { λ s. at_most s.next };

    // Of a table's links the numbers fall. Of any words the walk ends where they do not.
    fn next(&mut self) -> Option<Link> {
        if self.next == 0 {
            return None;
        }
        let links = self.links;
        let link = Link::from(links[(self.next - 1) as usize % 256]);
        self.next = if link.before < self.next {
            link.before
        } else {
            0
        };
        Some(link)
    }
}
