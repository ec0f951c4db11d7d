// The table of packages.
ghost use Rattle.std.specs.Prelude.{◌≡◌, ℕ, ◌/◌, ◌%◌, ◌<◌, length, slice_index};
ghost use Rattle.drawing_parts.specs.Parts.{elements_of};

use crate::drawing::cells::Cells;

impl Cells<'_> {
    // For each sender, sixteen numbers apart, and each role how many elements the sender sends for the role.
    pub(crate) fn tally(&self) -> [u32; 256]
        ensures len { length result ≡ 256 }
        ensures items { (p : ℕ) → p < 256 → slice_index result p ≡ elements_of self.now.operation self.now.target.now self.now.source.now (p / 16) (p % 16) }
    {
        let mut packages = [0; 256];
        for i in 0..self.rows.spans {
            let height = (self.rows.lines[i + 1].at - self.rows.lines[i].at) as u32;
            for j in 0..self.columns.spans {
                let width = (self.columns.lines[j + 1].at - self.columns.lines[j].at) as u32;
                let (sender, role) = self.owners(i, j);
                packages[sender * 16 + role] += height * width;
            }
        }
        packages
    }
}
