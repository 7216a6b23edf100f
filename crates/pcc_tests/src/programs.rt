//! Programs by table: each is evaluated, and compiled and run. What is expected is by hand, from C99 and the choices
//! that it leaves open; where C99 gives a program a meaning, what gcc makes of it does the same.
//!
//! A row is a program, ` <= ` and its input if it has one, and what it is to tell: the status, the line on standard
//! error, and what it writes if it does.

/// Sums, quotients and shifts, and the left of a sum before its right.
pub const ARITHMETIC: &str = "\
5 rows
int main(void){char c=200; return c<0?c+100:1;} => 0 exit 44$
int main(void){int x=5; char c=7; char s=33; int y=x<<s; return y*10+c;} => 0 exit 107$
int main(void){int a=47; int b=5; int q=a/b; return q*10+a%b+a;} => 0 exit 139$
int main(void){return (-2147483647-1)/(-1);} => 8 trap divide$
int f(int n){putchar('0'+n); return n;} int main(void){return f(1)+f(2)*f(3)-f(4);} => 0 exit 3$ => 1234";

/// Conversions to narrower types, operands that aren't evaluated, and remainders.
pub const OPERATORS: &str = "\
5 rows
int main(void){int a=1;int b=2;int c=a+++b;return c*10+a;} => 0 exit 32$
int main(void){short s=40000; return s/256;} => 0 exit 157$
int main(void){int a=-7; return a/2*10+a%2+100;} => 0 exit 69$
int main(void){int a=1; int b=0; putchar('a'); return a%b;} => 8 trap divide$ => a
int f(int n){putchar('a'+n); return n;} int main(void){int r=f(0)&&f(1); r=r*2+(f(2)||f(3)); return \
    r*10+(f(0)?f(4):f(5));} => 0 exit 15$ => acaf";

/// Labels that fall through, loops that go on and break, and locals that begin as 0 each time.
pub const STATEMENTS: &str = "\
5 rows
int main(void){int i; for(i=0;i<5;i++) switch(i){case 1: putchar('a'); case 2: putchar('b'); break; default: \
    putchar('c'); case 3: putchar('d');} return i;} => 0 exit 5$ => cdabbdcd
int main(void){int n=0; int i=0; do {i++; if(i%2) continue; if(i>8) break; n+=i;} while(i<100); return n;} \
    => 0 exit 20$
int main(void){int i; int n=0; for(i=0;i<3;i++){int k; k+=i+1; n=n*10+k;} return n;} => 0 exit 123$
int main(void){int c; int n=0; while((c=getchar())!=-1) n+=c=='\\n'; return n;} <= a$b$$ => 0 exit 3$
int main(void){return getchar()+getchar()*2;} <= A => 0 exit 63$";

/// As many calls as may be active, one more, an end in a call, and a name that is hidden.
pub(crate) const CALLS: &str = "\
5 rows
int f(int n){if(n==0)return 0; return f(n-1);} int main(void){return f(4094);} => 0 exit 0$
int f(int n){if(n==0)return 0; return f(n-1);} int main(void){return f(4095);} => 8 trap check$
int f(int n){if(n==0)exit(7); putchar('0'+n); return f(n-1);} int main(void){return f(3);} => 0 exit 7$ => 321
int f(void){static int n=1; return n+=n;} int main(void){f(); f(); return f()*10+f();} => 0 exit 96$
int f(int f){return f;} int main(void){int x=1; {int x=2; return x+f(1);}} => 0 exit 3$";

/// Elements through pointers, strings that are written, and an access past the end.
pub(crate) const POINTERS: &str = "\
5 rows
int g[2]={3,4}; int main(void){int *p=g; *p++ += 5; return g[0]*10+*p;} => 0 exit 84$
int main(void){int a[3]; int *p; putchar('o'); p=a+3; putchar('k'); a[3]=1; return 0;} => 8 trap check$ => ok
int main(void){char a[1]={200}; return a[0]<0;} => 0 exit 1$
int main(void){char *s=\"abc\"; s[1]='X'; while(*s) putchar(*s++); return s[-1];} => 0 exit 99$ => aXc
int main(void){int *p; putchar('a'); p=0; return *p;} => 8 trap check$ => a";

/// Arrays of a function that are zero again, negative indices, and pointers into two arrays.
pub(crate) const ARRAYS: &str = "\
5 rows
int f(int n){int a[3]; a[n]+=n; return a[0]*100+a[1]*10+a[2];} int main(void){return f(1)+f(2)+f(0);} => 0 exit 12$
short g[3]={1,-2,3}; int sum(short *p,int n){int s=0; while(n-->0) s=s*2+*p++; return s;} int main(void){return \
    sum(g,3);} => 0 exit 3$
int main(void){int a[3]; putchar('a'); return a[-1];} => 8 trap check$ => a
int main(void){int a[2]; int b[2]; putchar('a'); return a<b;} => 8 trap check$ => a
int main(void){int a[4]; int *p=a+1; int *q=&a[3]; return (q-p)*10+(p<q)+(a+1==p);} => 0 exit 22$";

/// Counts the lines, words and bytes of its input.
pub(crate) const WORD_COUNTER: &str = "# 1 \"wc.c\"
int putchar(int c);
int getchar(void);
static int counts[3];
static void number(int n)
{
    char digits[10];
    int k = 0;
    do {
        digits[k++] = '0' + n % 10;
        n /= 10;
    } while (n > 0);
    while (k > 0)
        putchar(digits[--k]);
}
static void text(const char *s)
{
    while (*s)
        putchar(*s++);
}
int main(void)
{
    int c, inside = 0;
    while ((c = getchar()) != -1) {
        counts[2]++;
        if (c == '\\n')
            counts[0]++;
        if (c == ' ' || c == '\\n' || c == '\\t')
            inside = 0;
        else if (!inside) {
            inside = 1;
            counts[1]++;
        }
    }
    for (c = 0; c < 3; c++) {
        number(counts[c]);
        text(c < 2 ? \" \" : \"\\n\");
    }
    return 0;
}
";

/// An input of 14 bytes, and what the word counter is to tell of it.
pub const WORDS: (&str, &str) = ("one two\nthree\n", "0 exit 0$ => 2 3 14$");
